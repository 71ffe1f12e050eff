// Reading on: a receiver is given whole stretches of a line, and comes back at each report (specs/Reading.antt). The two areas are two parameters,
// as in link.
#![tactic(auto)]

ghost use Rattle.std.specs.Prelude.{◌≡◌, map, min, ◌+◌, ◌≤◌, length, drop, not, ◌&&◌};
ghost use Rattle.cobs.specs.CodeBlocks.{from_line};
ghost use Rattle.link.specs.Answers.{report_answer, is_quiet};
ghost use Rattle.link.specs.Receiver.{is_plain, is_escaped, write};
ghost use Rattle.link.specs.ReceiverParts.{ReceiverReady};
ghost use Rattle.reader.specs.Stretches.{is_special, before_flag, before_special};
ghost use Rattle.reader.specs.Reading.{used_before, read_on};
ghost use Rattle.reader.specs.NothingLost.{AsTheCalls, FirstThenRest, StretchesJoin, AllReported};

use link::receiver::{Mode, Receiver, Report};

// How far a stretch was read: the answer to the last octet used, and how many octets were used.
#[derive(Clone, Copy)]
pub struct Reached {
    pub report: Report,
    pub used: usize,
}

// Whether reading goes on over an answer.
fn is_quiet(answer: Report) -> bool
    ensures { result ≡ is_quiet (report_answer answer) }
{
    matches!(answer, Report::Quiet)
}

// Plain PPP is read, and no escape is open.
fn reads_plain(mode: Mode) -> bool
    ensures { result ≡ (is_plain mode && not (is_escaped mode)) }
{
    matches!(mode, Mode::Plain)
}

// How many octets stand before the first flag. (One test each, here and below: a function with the test as a parameter would say no more. Not
// inlined: with this one inlined, and the two copies below not, plain PPP took up to a tenth more instructions.)
#[inline(never)]
fn before_flag(octets: &[u8]) -> usize
    ensures { result ≡ before_flag octets.now }
{
    octets
        .iter()
        .position(|&octet| octet == cobs::FLAG)
        .unwrap_or(octets.len())
}

// In plain PPP, an octet that is not copied as it is: flag, escape, or one that the map removes.
fn special(map: u32, octet: u8) -> bool
    ensures { result ≡ is_special map octet }
{
    // `|` as in link: tests that cost as little as a jump
    (octet == cobs::FLAG) | (octet == plain::ESCAPE) | plain::removed(map, octet)
}

// How many octets stand before the first of them.
fn before_special(octets: &[u8], map: u32) -> usize
    ensures { result ≡ before_special map octets.now }
{
    octets
        .iter()
        .position(|&octet| special(map, octet))
        .unwrap_or(octets.len())
}

// Octets written into an area, from a place on: as link's, octet by octet, and private as that is. (Not inlined, nor is `copy_data`: with the
// two in it, `read_on` in the C library had 80 octets more of the stack under each call there, for up to 3 in 100 instructions fewer, and
// `capture` took up to 7 in 100 fewer.)
#[inline(never)]
fn copy(octets: &[u8], area: &mut [u8], at: usize)
    requires { at + length octets.now ≤ length area.old }
    ensures { area.new ≡ write area.old at octets.now }
{
    for (i, &octet) in octets.iter().enumerate() {
        area[at + i] = octet;
    }
}

// Data octets, turned back and written into an area, from a place on. By index: of what a chain writes through iter_mut and zip a contract
// knows nothing. (The writer's `copy` turns them the other way.)
#[inline(never)]
fn copy_data(octets: &[u8], area: &mut [u8], at: usize)
    requires { at + length octets.now ≤ length area.old }
    ensures { area.new ≡ write area.old at (map from_line octets.now) }
{
    for (i, &octet) in octets.iter().enumerate() {
        area[at + i] = cobs::from_line(octet);
    }
}

// The calls for the next octets at once, in a plain frame: those before the first that is not copied as it is, as far as the largest frame
// has room. So many octets are used, and each was answered Quiet.
fn plain_stretch(state: &mut Receiver, octets: &[u8], first: &mut [u8], second: &mut [u8]) -> usize
    requires receiver_ready { ReceiverReady (record { state = state.old; first = first.old; second = second.old }) }
    requires refusal_value { state.old.refusal ≡ 0 }
    ensures octets_value { read_on (record { state = state.old; first = first.old; second = second.old }) octets.now
        ≡ used_before result (read_on (record { state = state.new; first = first.new; second = second.new }) (drop result octets.now)) }
    ensures used_in_bounds { result ≤ length octets.now }
{
    if !reads_plain(state.mode) | !state.framed {
        return 0;
    }
    let at = state.decoded as usize;
    let room = state.settings.largest_frame().saturating_sub(at);
    let used = before_special(&octets[..room.min(octets.len())], state.map);
    state.decoded += used as u16;
    let data = &octets[..used];
    // a call in each arm: one area chosen by an `if` gets no proof
    if state.turn {
        copy(data, second, at);
    } else {
        copy(data, first, at);
    }
    used
}

// The calls for the next octets at once, as far as they are known to be Quiet: in a refused frame those before the flag, in a block the data
// octets before a flag and before the block's last, with which its zeros are decoded, and in a plain frame as above.
fn stretch(state: &mut Receiver, octets: &[u8], first: &mut [u8], second: &mut [u8]) -> usize
    requires { ReceiverReady (record { state = state.old; first = first.old; second = second.old }) }
    ensures octets_value { read_on (record { state = state.old; first = first.old; second = second.old }) octets.now
        ≡ used_before result (read_on (record { state = state.new; first = first.new; second = second.new }) (drop result octets.now)) }
    ensures used_in_bounds { result ≤ length octets.now }
{
    if state.refusal != 0 {
        return before_flag(octets);
    }
    if state.left <= 1 {
        return plain_stretch(state, octets, first, second);
    }
    let at = state.decoded as usize;
    let room = state.settings.most_decoded() - at;
    let most = room.min(state.left as usize - 1).min(octets.len());
    let used = before_flag(&octets[..most]);
    state.decoded += used as u16;
    state.left -= used as u8;
    let data = &octets[..used];
    if state.turn {
        copy_data(data, second, at);
    } else {
        copy_data(data, first, at);
    }
    used
}

// Gives a receiver the octets of a stretch, one after another, up to and with the first that is answered by anything but Quiet.
pub fn read_on(state: &mut Receiver, octets: &[u8], first: &mut [u8], second: &mut [u8]) -> Reached
    ensures used_after { record {
      report = report_answer result.report;
      after = record { state = state.new; first = first.new; second = second.new };
      used = result.used;
    }
        ≡ read_on (record { state = state.old; first = first.old; second = second.old }) octets.now }
    ensures octets_bound { (min 1 (length octets.now) ≤ result.used) × (result.used ≤ length octets.now) }
{
    let mut end = *state;
    let mut used = 0;
    // by index, and with a local state: with split_first over what is left it takes up to 1.7 in 100 instructions more
    while used < octets.len() {
        let received = end.receive(octets[used], first, second);
        end = received.state;
        used += 1;
        if !is_quiet(received.report) {
            *state = end;
            return Reached {
                report: received.report,
                used,
            };
        }
        used += stretch(&mut end, &octets[used..], first, second);
    }
    *state = end;
    Reached {
        report: Report::Quiet,
        used,
    }
}

// What is claimed of this crate: each theorem that docs/DEMANDS.md names.
pub fn claims()
    ensures { AsTheCalls × FirstThenRest × StretchesJoin × AllReported }
{}
