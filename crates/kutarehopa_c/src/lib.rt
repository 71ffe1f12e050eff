// The C library's archive: what libkutarehopa.a exports (include/kutarehopa.h, docs/CLIBRARY.md). Each export is the function of that name in the
// crate kutarehopa, with its clauses, since a crate that others use exports nothing itself.
#![tactic(auto)]

ghost use Rattle.std.specs.Prelude.{◌≡◌};
ghost use Rattle.fcs.specs.CheckSequence.{check16, check32, feed};
ghost use Rattle.link.specs.declared.sender.Lane.TheVariants.{Low as low_lane, High as high_lane};
ghost use Rattle.kutarehopa.specs.Calls.{reading_of, open_receiver, open_sender, open_pair, receive_call, read_call, load_call, next_call, write_call, plain_send_call};

use kutarehopa::Stretch;

// ---- the receiver

#[unsafe(no_mangle)]
pub extern "C" fn kuta_receiver_open(
    state: &mut [u8; 64],
    settings: u8,
    width: u8,
    limit: u16,
    plain: u8,
    map: u32,
) -> u32
    ensures { record { answer = result; state = state.new }
        ≡ open_receiver state.old (record { octet = settings; width = width; limit = limit }) (reading_of plain map) }
{
    kutarehopa::kuta_receiver_open(state, settings, width, limit, plain, map)
}

#[unsafe(no_mangle)]
pub extern "C" fn kuta_receive(
    state: &mut [u8; 64],
    octet: u8,
    first: &mut [u8],
    second: &mut [u8],
) -> u32
    ensures { record { answer = result; state = state.new; first = first.new; second = second.new }
        ≡ receive_call state.old octet first.old second.old }
{
    kutarehopa::kuta_receive(state, octet, first, second)
}

#[unsafe(no_mangle)]
pub extern "C" fn kuta_read_on(
    state: &mut [u8; 64],
    octets: &[u8],
    first: &mut [u8],
    second: &mut [u8],
) -> Stretch
    ensures { record { answer = result.answer; used = result.octets; state = state.new; first = first.new; second = second.new }
        ≡ read_call state.old octets.now first.old second.old }
{
    kutarehopa::kuta_read_on(state, octets, first, second)
}

// ---- the sender

#[unsafe(no_mangle)]
pub extern "C" fn kuta_sender_open(state: &mut [u8; 64], settings: u8, width: u8, limit: u16) -> u32
    ensures { record { answer = result; state = state.new } ≡ open_sender state.old (record { octet = settings; width = width; limit = limit }) }
{
    kutarehopa::kuta_sender_open(state, settings, width, limit)
}

#[unsafe(no_mangle)]
pub extern "C" fn kuta_load_low(state: &mut [u8; 64], packet: &[u8], area: &mut [u8]) -> u32
    ensures { record { answer = result; state = state.new; area = area.new }
        ≡ load_call low_lane state.old packet.now area.old }
{
    kutarehopa::kuta_load_low(state, packet, area)
}

#[unsafe(no_mangle)]
pub extern "C" fn kuta_load_high(state: &mut [u8; 64], packet: &[u8], area: &mut [u8]) -> u32
    ensures { record { answer = result; state = state.new; area = area.new }
        ≡ load_call high_lane state.old packet.now area.old }
{
    kutarehopa::kuta_load_high(state, packet, area)
}

#[unsafe(no_mangle)]
pub extern "C" fn kuta_next(state: &mut [u8; 64], low: &[u8], high: &[u8]) -> u32
    ensures { record { answer = result; state = state.new } ≡ next_call state.old low.now high.now }
{
    kutarehopa::kuta_next(state, low, high)
}

#[unsafe(no_mangle)]
pub extern "C" fn kuta_write_on(
    state: &mut [u8; 64],
    low: &[u8],
    high: &[u8],
    line: &mut [u8],
) -> Stretch
    ensures { record { answer = result.answer; written = result.octets; state = state.new; line = line.new }
        ≡ write_call state.old low.now high.now line.old }
{
    kutarehopa::kuta_write_on(state, low, high, line)
}

// ---- plain PPP

#[unsafe(no_mangle)]
pub extern "C" fn kuta_pair_open(
    sender: &mut [u8; 64],
    receiver: &mut [u8; 64],
    settings: u8,
    width: u8,
    limit: u16,
    map: u32,
    marks: &[u8; 32],
) -> u32
    ensures { record { answer = result; sender = sender.new; receiver = receiver.new }
        ≡ open_pair sender.old receiver.old (record { octet = settings; width = width; limit = limit }) map marks.now }
{
    kutarehopa::kuta_pair_open(sender, receiver, settings, width, limit, map, marks)
}

#[unsafe(no_mangle)]
pub extern "C" fn kuta_plain_send(sender: &[u8; 64], packet: &[u8], area: &mut [u8]) -> u32
    ensures { record { answer = result; area = area.new }
        ≡ plain_send_call sender.now packet.now area.old }
{
    kutarehopa::kuta_plain_send(sender, packet, area)
}

// ---- the check sequence

#[unsafe(no_mangle)]
pub extern "C" fn pppfcs16(start: u16, octets: &[u8]) -> u16
    ensures { result ≡ feed check16 start octets.now }
{
    kutarehopa::pppfcs16(start, octets)
}

#[unsafe(no_mangle)]
pub extern "C" fn pppfcs32(start: u32, octets: &[u8]) -> u32
    ensures { result ≡ feed check32 start octets.now }
{
    kutarehopa::pppfcs32(start, octets)
}
