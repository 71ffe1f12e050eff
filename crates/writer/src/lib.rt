// Writing on: a sender fills whole stretches of a line, and comes back behind each flag (specs/Writing.antt). The two areas are two parameters, as
// in link.
#![tactic(auto)]

ghost use Rattle.std.specs.Prelude.{◌≡◌, ◌&&◌, not, eqb, map, ◌+◌, ◌-◌, ◌<◌, ◌≤◌, length, drop};
ghost use Rattle.cobs.specs.CodeBlocks.{to_line};
ghost use Rattle.link.specs.Receiver.{write};
ghost use Rattle.link.specs.Sender.{is_low, lane_area, lane_state, position_up, with_block};
ghost use Rattle.link.specs.SenderParts.{SenderReady};
ghost use Rattle.writer.specs.Writing.{write_on, onto, from_place};
ghost use Rattle.writer.specs.Pieces.{HoweverCut, WherePiecesEnd, OnTheLine};

use link::sender::{Lane, Sender};

// Octets, as they are sent, on the line from a place on. By index: of what a chain writes through iter_mut and zip a contract knows nothing.
fn copy(octets: &[u8], line: &mut [u8], at: usize)
    requires { at + length octets.now ≤ length line.old }
    ensures { line.new ≡ write line.old at (map to_line octets.now) }
{
    for (i, &octet) in octets.iter().enumerate() {
        line[at + i] = cobs::to_line(octet);
    }
}

// The octets of a lane's area, from its position on.
fn behind<'a>(state: &Sender, lane: Lane, low: &'a [u8], high: &'a [u8]) -> &'a [u8]
    requires { (lane_state lane state.now).position ≤ length (lane_area lane (record { state = state.now; low = low.now; high = high.now })) }
    ensures { result.now ≡ drop (lane_state lane state.now).position (lane_area lane (record { state = state.now; low = low.now; high = high.now })) }
{
    match lane {
        Lane::Low => &low[state.low.position as usize..],
        Lane::High => &high[state.high.position as usize..],
    }
}

// Low gives way to a packet of high's.
fn gives_way(state: &Sender, lane: Lane) -> bool
    ensures { result ≡ (is_low lane && not (eqb state.now.high.length 0)) }
{
    matches!(lane, Lane::Low) & (state.high.length != 0)
}

// So many data octets of a lane's block are sent. (Link's own `cover` is private, and by value.)
fn advance(state: &mut Sender, lane: Lane, n: u8)
    requires { (n ≤ state.old.left) × ((lane_state lane state.old).position + n < 65536) }
    ensures { state.new ≡ with_block (state.old.left - n) state.old.zeros (position_up n lane state.old) }
{
    state.left -= n;
    match lane {
        Lane::Low => state.low.position += n as u16,
        Lane::High => state.high.position += n as u16,
    }
}

// Writes on at a place within a block, as far as it is data and nothing breaks it off; so many octets.
fn stretch(state: &mut Sender, low: &[u8], high: &[u8], line: &mut [u8], at: usize) -> usize
    requires { SenderReady (record { state = state.old; low = low.now; high = high.now }) × (at ≤ length line.old) }
    ensures written_value { from_place at line.old (write_on (length line.old - at) (record { state = state.old; low = low.now; high = high.now }))
        ≡ from_place (at + result) line.new (write_on (length line.new - (at + result)) (record { state = state.new; low = low.now; high = high.now })) }
    ensures in_bounds { at + result ≤ length line.new }
    ensures settings_value { state.new.settings ≡ state.old.settings }
{
    let Some(lane) = state.on else {
        return 0;
    };
    if state.left < 2 || gives_way(state, lane) {
        return 0;
    }
    // The last data octet also covers the block's zeros: it is left to next_octet.
    let n = (state.left as usize - 1).min(line.len() - at);
    copy(&behind(state, lane, low, high)[..n], line, at);
    advance(state, lane, n as u8);
    n
}

// Writes a sender's next octets on the line, from its start, up to and with the first flag; it stops before the first call that is not
// answered by an octet, and at the line's end. So many octets of it are filled.
pub fn write_on(state: &mut Sender, low: &[u8], high: &[u8], line: &mut [u8]) -> usize
    ensures filled_after { record { state = state.new; line = line.new; filled = result }
        ≡ onto line.old (write_on (length line.old) (record { state = state.old; low = low.now; high = high.now })) }
    ensures filled_in_bounds { result ≤ length line.old }
{
    let settings = state.settings;
    let mut end = *state;
    let mut filled = 0;
    // by a place, since a stretch is any number of octets; the state in a local
    while filled < line.len() {
        let Ok(Some(octet)) = end.next_octet(low, high) else {
            break;
        };
        line[filled] = octet;
        filled += 1;
        if octet == cobs::FLAG {
            break;
        }
        filled += stretch(&mut end, low, high, line, filled);
        // No call changes the settings. Said here, they are known to be the same at every turn, and what is tested of them is tested once.
        end.settings = settings;
    }
    *state = end;
    filled
}

// What is claimed of this crate: each theorem that docs/DEMANDS.md names.
pub fn claims()
    ensures { HoweverCut × WherePiecesEnd × OnTheLine }
{}
