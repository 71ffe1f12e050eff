// The calls for C (include/kutarehopa.h, docs/CLIBRARY.md), on states that the caller keeps as 64 octets. specs/Calls.antt says what each
// answers and leaves. The exported functions have the header's parameters: C hands in settings and areas one by one.
#![tactic(auto)]

ghost use Rattle.std.specs.Prelude.{◌≡◌, ◌||◌, ◌+◌, ◌≤◌, ltb, length};
ghost use Rattle.fcs.specs.CheckSequence.{check16, check32, feed};
ghost use Rattle.link.specs.Agreed.{agreed, largest_frame, most_decoded};
ghost use Rattle.link.specs.declared.sender.Lane.TheVariants.{Low as low_lane, High as high_lane};
ghost use Rattle.kutarehopa.specs.Layout.{number_at, settings_in};
ghost use Rattle.kutarehopa.specs.Calls.{no_state, short_for_receiver, short_for_sender, reading_of, open_receiver, open_sender, open_pair, receive_call, read_call, load_call, next_call, write_call, no_plain_sender, plain_send_call};
ghost use Rattle.kutarehopa.specs.Numbers.{NumbersComeApart, ReportsHaveNumbers, SendsHaveNumbers};
ghost use Rattle.kutarehopa.specs.Spelling.{PackedSpellsItself, PackedAgain, LooksNowhereElse};
ghost use Rattle.kutarehopa.specs.AsTheCalls.{OpenedIsPacked, OnPackedStates, RunsAsLink, AsPackedAgain, NoCallMade, RefusedLeavesAll, NoOctetNoChange, NoStateIsOutOfBounds, RestStays};
ghost use Rattle.kutarehopa.specs.Marked.{MarkedOctets, MarkedNumbers};

use link::Settings;
use link::plain_sender::PlainSender;
use link::sender::Lane;

mod answers;
mod plain_sender;
mod receiver;
mod sender;

// How far a stretch of a line was read or written: the answer of the last call for it, and how many octets were used or written.
#[repr(C)]
#[derive(Clone, Copy)]
pub struct Stretch {
    pub answer: u32,
    pub octets: usize,
}

// The number of two octets from octet i on, the low one first.
pub(crate) fn number_at(state: &[u8; 64], i: usize) -> u16
    requires { i + 2 ≤ 64 }
    ensures { result ≡ number_at state.now i }
{
    u16::from_le_bytes([state[i], state[i + 1]])
}

// The settings in the octets of either end.
pub(crate) fn settings_in(state: &[u8; 64]) -> Settings
    ensures { result ≡ settings_in state.now }
{
    Settings {
        octet: state[4],
        width: state[1],
        limit: number_at(state, 2),
    }
}

// Octets that spell no state are refused,
fn no_state(settings: Settings, short: bool) -> u32
    ensures { result ≡ no_state settings short }
{
    if settings.valid() && short {
        answers::refused(2)
    } else {
        answers::refused(3)
    }
}

// with the areas of a receiver,
fn no_receiver(state: &[u8; 64], first: &[u8], second: &[u8]) -> u32
    ensures { result ≡ no_state (settings_in state.now) (short_for_receiver (settings_in state.now) first.now second.now) }
{
    let settings = settings_in(state);
    no_state(
        settings,
        either_short(first, second, settings.most_decoded()),
    )
}

// and with those of a sender.
fn no_sender(state: &[u8; 64], low: &[u8], high: &[u8]) -> u32
    ensures { result ≡ no_state (settings_in state.now) (short_for_sender (settings_in state.now) low.now || short_for_sender (settings_in state.now) high.now) }
{
    let settings = settings_in(state);
    no_state(settings, either_short(low, high, settings.largest_frame()))
}

// Whether one of two areas is too short: all that the two refusals above have in common.
fn either_short(a: &[u8], b: &[u8], least: usize) -> bool
    ensures { result ≡ (ltb (length a.now) least || ltb (length b.now) least) }
{
    a.len() < least || b.len() < least
}

// ---- the receiver

// Plain reading, off or on with this map.
fn reading(mark: u8, map: u32) -> Option<u32>
    ensures { result ≡ reading_of mark map }
{
    if mark == 0 { None } else { Some(map) }
}

#[tactic(auto, unfolding(crate::specs::Calls::open_receiver))]
#[unsafe(no_mangle)]
pub extern "C" fn kuta_receiver_open(
    state: &mut [u8; 64],
    settings: u8,
    width: u8,
    limit: u16,
    plain: u8,
    map: u32,
) -> u32
    ensures { record { answer = result; state = state.new }
        ≡ open_receiver state.old (record { octet = settings; width = width; limit = limit }) (reading_of plain map) }
{
    let agreed = Settings {
        octet: settings,
        width,
        limit,
    };
    match link::receiver::open(agreed, reading(plain, map)) {
        Ok(opened) => {
            receiver::pack(state, opened);
            answers::done()
        }
        Err(error) => answers::refused(u8::from(error)),
    }
}

#[tactic(auto, unfolding(crate::specs::Calls::receive_call))]
#[unsafe(no_mangle)]
pub extern "C" fn kuta_receive(
    state: &mut [u8; 64],
    octet: u8,
    first: &mut [u8],
    second: &mut [u8],
) -> u32
    ensures { record { answer = result; state = state.new; first = first.new; second = second.new }
        ≡ receive_call state.old octet first.old second.old }
{
    let Some(before) = receiver::unpack(state) else {
        return no_receiver(state, first, second);
    };
    let received = before.receive(octet, first, second);
    receiver::keep(state, received.report, received.state);
    answers::of_report(received.report)
}

#[tactic(auto, unfolding(crate::specs::Calls::read_call))]
#[unsafe(no_mangle)]
pub extern "C" fn kuta_read_on(
    state: &mut [u8; 64],
    octets: &[u8],
    first: &mut [u8],
    second: &mut [u8],
) -> Stretch
    ensures { record { answer = result.answer; used = result.octets; state = state.new; first = first.new; second = second.new }
        ≡ read_call state.old octets.now first.old second.old }
{
    if octets.is_empty() {
        return Stretch {
            answer: answers::quiet(),
            octets: 0,
        };
    }
    let Some(mut receiver) = receiver::unpack(state) else {
        return Stretch {
            answer: no_receiver(state, first, second),
            octets: 1,
        };
    };
    let reached = reader::read_on(&mut receiver, octets, first, second);
    receiver::keep(state, reached.report, receiver);
    Stretch {
        answer: answers::of_report(reached.report),
        octets: reached.used,
    }
}

// ---- the sender

#[tactic(auto, unfolding(crate::specs::Calls::open_sender))]
#[unsafe(no_mangle)]
pub extern "C" fn kuta_sender_open(state: &mut [u8; 64], settings: u8, width: u8, limit: u16) -> u32
    ensures { record { answer = result; state = state.new } ≡ open_sender state.old (record { octet = settings; width = width; limit = limit }) }
{
    let agreed = Settings {
        octet: settings,
        width,
        limit,
    };
    match link::sender::open(agreed) {
        Ok(opened) => {
            sender::pack(state, opened);
            answers::done()
        }
        Err(error) => answers::refused(u8::from(error)),
    }
}

#[tactic(auto, unfolding(crate::specs::Calls::load_call))]
fn load(state: &mut [u8; 64], lane: Lane, packet: &[u8], area: &mut [u8]) -> u32
    ensures { record { answer = result; state = state.new; area = area.new }
        ≡ load_call lane state.old packet.now area.old }
{
    let Some(mut sender) = sender::unpack(state) else {
        let settings = settings_in(state);
        return no_state(settings, area.len() < settings.largest_frame());
    };
    match sender.load(lane, packet, area) {
        Ok(()) => {
            sender::pack(state, sender);
            answers::done()
        }
        Err(error) => answers::refused(u8::from(error)),
    }
}

#[unsafe(no_mangle)]
pub extern "C" fn kuta_load_low(state: &mut [u8; 64], packet: &[u8], area: &mut [u8]) -> u32
    ensures { record { answer = result; state = state.new; area = area.new }
        ≡ load_call low_lane state.old packet.now area.old }
{
    load(state, Lane::Low, packet, area)
}

#[unsafe(no_mangle)]
pub extern "C" fn kuta_load_high(state: &mut [u8; 64], packet: &[u8], area: &mut [u8]) -> u32
    ensures { record { answer = result; state = state.new; area = area.new }
        ≡ load_call high_lane state.old packet.now area.old }
{
    load(state, Lane::High, packet, area)
}

#[tactic(auto, unfolding(crate::specs::Calls::next_call))]
#[unsafe(no_mangle)]
pub extern "C" fn kuta_next(state: &mut [u8; 64], low: &[u8], high: &[u8]) -> u32
    ensures { record { answer = result; state = state.new } ≡ next_call state.old low.now high.now }
{
    let Some(mut sender) = sender::unpack(state) else {
        return no_sender(state, low, high);
    };
    let answer = sender.next_octet(low, high);
    if matches!(answer, Ok(Some(_))) {
        sender::pack(state, sender);
    }
    answers::of_next(answer)
}

#[tactic(auto, unfolding(crate::specs::Calls::write_call))]
#[unsafe(no_mangle)]
pub extern "C" fn kuta_write_on(
    state: &mut [u8; 64],
    low: &[u8],
    high: &[u8],
    line: &mut [u8],
) -> Stretch
    ensures { record { answer = result.answer; written = result.octets; state = state.new; line = line.new }
        ≡ write_call state.old low.now high.now line.old }
{
    if line.is_empty() {
        return Stretch {
            answer: answers::quiet(),
            octets: 0,
        };
    }
    let Some(mut before) = sender::unpack(state) else {
        return Stretch {
            answer: no_sender(state, low, high),
            octets: 0,
        };
    };
    let mut after = before;
    let filled = writer::write_on(&mut after, low, high, line);
    if filled == 0 {
        let first = before.next_octet(low, high);
        return Stretch {
            answer: answers::of_next(first),
            octets: 0,
        };
    }
    sender::pack(state, after);
    Stretch {
        answer: answers::octet(line[filled - 1]),
        octets: filled,
    }
}

// ---- plain PPP

// A plain sender and a receiver that reads what it writes.
#[tactic(auto, unfolding(crate::specs::Calls::open_pair))]
#[unsafe(no_mangle)]
pub extern "C" fn kuta_pair_open(
    sender: &mut [u8; 64],
    receiver: &mut [u8; 64],
    settings: u8,
    width: u8,
    limit: u16,
    map: u32,
    marks: &[u8; 32],
) -> u32
    ensures { record { answer = result; sender = sender.new; receiver = receiver.new }
        ≡ open_pair sender.old receiver.old (record { octet = settings; width = width; limit = limit }) map marks.now }
{
    let agreed = Settings {
        octet: settings,
        width,
        limit,
    };
    let pair = link::plain_sender::open_pair(agreed, map, *marks);
    match pair.receiver {
        Ok(opened) => {
            plain_sender::pack(sender, pair.sender);
            receiver::pack(receiver, opened);
            answers::done()
        }
        Err(error) => answers::refused(u8::from(error)),
    }
}

// Octets that spell no plain sender are refused. The width is known at run time alone.
#[tactic(auto, unfolding(link::specs::Agreed::agreed))]
fn no_plain_sender(state: PlainSender, packet: &[u8], room: usize) -> u32
    ensures { result ≡ no_plain_sender state packet.now room }
{
    let settings = Settings {
        octet: 0,
        width: state.width,
        limit: state.limit,
    };
    let too_long = if state.width == 32 {
        plain::too_long::<u32>(packet, &state.marks, room)
    } else {
        plain::too_long::<u16>(packet, &state.marks, room)
    };
    no_state(settings, too_long)
}

#[tactic(auto, unfolding(crate::specs::Calls::plain_send_call))]
#[unsafe(no_mangle)]
pub extern "C" fn kuta_plain_send(sender: &[u8; 64], packet: &[u8], area: &mut [u8]) -> u32
    ensures { record { answer = result; area = area.new }
        ≡ plain_send_call sender.now packet.now area.old }
{
    let state = plain_sender::unpack(sender);
    if !plain_sender::spells(sender) {
        return no_plain_sender(state, packet, area.len());
    }
    answers::of_sent(state.send(packet, area))
}

// ---- the check sequence

// RFC 1662's functions, under their names.
#[unsafe(no_mangle)]
pub extern "C" fn pppfcs16(start: u16, octets: &[u8]) -> u16
    ensures { result ≡ feed check16 start octets.now }
{
    fcs::pppfcs16(start, octets)
}

#[unsafe(no_mangle)]
pub extern "C" fn pppfcs32(start: u32, octets: &[u8]) -> u32
    ensures { result ≡ feed check32 start octets.now }
{
    fcs::pppfcs32(start, octets)
}

// What is claimed of this crate: each theorem that docs/DEMANDS.md names.
pub fn claims()
    ensures numbers_come_apart { NumbersComeApart × ReportsHaveNumbers × SendsHaveNumbers }
    ensures packed_spells_itself { PackedSpellsItself × PackedAgain × LooksNowhereElse }
    ensures opened_is_packed { OpenedIsPacked × OnPackedStates × RunsAsLink }
    ensures as_packed_again { AsPackedAgain × NoCallMade × RefusedLeavesAll × NoOctetNoChange × NoStateIsOutOfBounds × RestStays }
    ensures marked_octets { MarkedOctets × MarkedNumbers }
{}
