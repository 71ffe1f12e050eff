// The receiver's state in octets (specs/Layout.antt). Plain functions and no From or TryFrom: the types are link's.
#![tactic(auto, unfolding(crate::specs::Layout::spell_receiver, crate::specs::Layout::receiver_in, crate::specs::Layout::receiver_octets))]

ghost use Rattle.std.specs.Prelude.{◌≡◌, Some, None, eqb};
ghost use Rattle.std.specs.Prelude.{if◌then◌else◌};
ghost use Rattle.link.specs.Receiver.{holds};
ghost use Rattle.link.specs.Answers.{report_answer};
ghost use Rattle.kutarehopa.specs.Calls.{taken, receiver_after};
ghost use Rattle.kutarehopa.specs.Layout.{long_at, last_block_of, last_block_octet, mode_of, mode_octet, held_count, spell_receiver, receiver_in, receiver_octets, over};

use link::receiver::{Fragment, LastBlock, Mode, Receiver, Report};

fn fragment(mark: u8, count: u16, register: u32) -> Option<Fragment>
    ensures { result ≡ (if eqb mark 1 then holds count register else None) }
{
    if mark == 1 {
        Some(Fragment { count, register })
    } else {
        None
    }
}

fn held_count(held: Option<Fragment>) -> u16
    ensures { result ≡ held_count held }
{
    match held {
        Some(fragment) => fragment.count,
        None => 0,
    }
}

fn last_block(n: u8) -> LastBlock
    ensures { result ≡ last_block_of n }
{
    match n {
        0 => LastBlock::NoBlock,
        1 => LastBlock::BlockD0,
        _ => LastBlock::OtherBlock,
    }
}

fn last_octet(last: LastBlock) -> u8
    ensures { result ≡ last_block_octet last }
{
    last as u8
}

fn mode_of(n: u8) -> Mode
    ensures { result ≡ mode_of n }
{
    match n {
        0 => Mode::Off,
        1 => Mode::Cobs,
        2 => Mode::Plain,
        _ => Mode::Escaped,
    }
}

fn mode_octet(mode: Mode) -> u8
    ensures { result ≡ mode_octet mode }
{
    mode as u8
}

// The map in a receiver's octets, (a function for each of the two, since an edit of each turns its octets round)
fn map_in(state: &[u8; 64]) -> u32
    ensures { result ≡ long_at state.now 6 }
{
    u32::from_le_bytes([state[6], state[7], state[8], state[9]])
}

// and the register.
fn register_in(state: &[u8; 64]) -> u32
    ensures { result ≡ long_at state.now 16 }
{
    u32::from_le_bytes([state[16], state[17], state[18], state[19]])
}

// Whether octets spell a state.
fn spells(state: &[u8; 64]) -> bool
    ensures { result ≡ spell_receiver state.now }
{
    // `&` and no `&&`, with which kuta_receive takes 24 instructions more a call
    (state[0] == 1)
        & (state[5] <= 3)
        & (state[10] <= 1)
        & (state[13] <= 1)
        & (state[22] <= 2)
        & (state[23] <= 1)
        & (state[24] <= 1)
        & (state[13] == 1 || register_in(state) == crate::settings_in(state).start())
}

// The state in octets that spell one.
fn receiver_in(state: &[u8; 64]) -> Receiver
    ensures { result ≡ receiver_in state.now }
{
    Receiver {
        settings: crate::settings_in(state),
        mode: mode_of(state[5]),
        map: map_in(state),
        turn: state[10] == 1,
        decoded: crate::number_at(state, 11),
        held: fragment(state[13], crate::number_at(state, 14), register_in(state)),
        left: state[20],
        zeros: state[21],
        last: last_block(state[22]),
        framed: state[23] == 1,
        resumed: state[24] == 1,
        refusal: state[25],
    }
}

// The state that octets spell, if they spell one. (As in sender.rt: generic over the two ends it would be one `if` over three functions more.)
pub(crate) fn unpack(state: &[u8; 64]) -> Option<Receiver>
    ensures { result ≡ (if spell_receiver state.now then Some (receiver_in state.now) else None) }
{
    if spells(state) {
        Some(receiver_in(state))
    } else {
        None
    }
}

// Its octets.
pub(crate) fn pack(state: &mut [u8; 64], r: Receiver)
    ensures { state.new ≡ over (receiver_octets r) state.old }
{
    let limit = r.settings.limit.to_le_bytes();
    let map = r.map.to_le_bytes();
    let decoded = r.decoded.to_le_bytes();
    let count = held_count(r.held).to_le_bytes();
    let register = r.carried().to_le_bytes();
    state[..26].copy_from_slice(&[
        1,
        r.settings.width,
        limit[0],
        limit[1],
        r.settings.octet,
        mode_octet(r.mode),
        map[0],
        map[1],
        map[2],
        map[3],
        r.turn as u8,
        decoded[0],
        decoded[1],
        r.held.is_some() as u8,
        count[0],
        count[1],
        register[0],
        register[1],
        register[2],
        register[3],
        r.left,
        r.zeros,
        last_octet(r.last),
        r.framed as u8,
        r.resumed as u8,
        r.refusal,
    ]);
}

// Whether a call was taken: 2 and 3 refuse it, all other refusals are reports of a frame.
fn taken(report: Report) -> bool
    ensures { result ≡ taken (report_answer report) }
{
    !matches!(report, Report::Refused(n) if n < 5)
}

// The octets after a call.
pub(crate) fn keep(state: &mut [u8; 64], report: Report, after: Receiver)
    ensures { state.new ≡ receiver_after state.old (report_answer report) after }
{
    if taken(report) {
        pack(state, after);
    }
}
