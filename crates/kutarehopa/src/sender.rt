// The sender's state in octets (specs/Layout.antt). Plain functions and no From or TryFrom: the types are link's.
#![tactic(auto, unfolding(crate::specs::Layout::spell_sender, crate::specs::Layout::sender_in, crate::specs::Layout::sender_octets))]

ghost use Rattle.std.specs.Prelude.{◌≡◌, ◌+◌, ◌≤◌, Some, None};
ghost use Rattle.std.specs.Prelude.{if◌then◌else◌};
ghost use Rattle.kutarehopa.specs.Layout.{number_at, line_of, line_octet, spell_sender, sender_in, sender_octets, over};

use link::sender::{Lane, LaneState, Sender};

fn on_line(n: u8) -> Option<Lane>
    ensures { result ≡ line_of n }
{
    match n {
        0 => None,
        1 => Some(Lane::Low),
        _ => Some(Lane::High),
    }
}

// A lane's numbers from octet i on.
fn lane_in(state: &[u8; 64], i: usize) -> LaneState
    requires { i + 4 ≤ 64 }
    ensures { result ≡ record { length = number_at state.now i; position = number_at state.now (i + 2) } }
{
    LaneState {
        length: crate::number_at(state, i),
        position: crate::number_at(state, i + 2),
    }
}

fn line_octet(on: Option<Lane>) -> u8
    ensures { result ≡ line_octet on }
{
    match on {
        None => 0,
        Some(Lane::Low) => 1,
        Some(Lane::High) => 2,
    }
}

// Whether octets spell a state.
fn spells(state: &[u8; 64]) -> bool
    ensures { result ≡ spell_sender state.now }
{
    state[0] == 1 && state[5] <= 2 && state[6] <= 1 && state[7] <= 1
}

// The state in octets that spell one.
fn sender_in(state: &[u8; 64]) -> Sender
    ensures { result ≡ sender_in state.now }
{
    Sender {
        settings: crate::settings_in(state),
        on: on_line(state[5]),
        suspended: state[6] == 1,
        cut: state[7] == 1,
        low: lane_in(state, 8),
        high: lane_in(state, 12),
        left: state[16],
        zeros: state[17],
    }
}

// The state that octets spell, if they spell one.
pub(crate) fn unpack(state: &[u8; 64]) -> Option<Sender>
    ensures { result ≡ (if spell_sender state.now then Some (sender_in state.now) else None) }
{
    if spells(state) {
        Some(sender_in(state))
    } else {
        None
    }
}

// Its octets.
pub(crate) fn pack(state: &mut [u8; 64], s: Sender)
    ensures { state.new ≡ over (sender_octets s) state.old }
{
    let limit = s.settings.limit.to_le_bytes();
    let low_length = s.low.length.to_le_bytes();
    let low_position = s.low.position.to_le_bytes();
    let high_length = s.high.length.to_le_bytes();
    let high_position = s.high.position.to_le_bytes();
    state[..18].copy_from_slice(&[
        1,
        s.settings.width,
        limit[0],
        limit[1],
        s.settings.octet,
        line_octet(s.on),
        s.suspended as u8,
        s.cut as u8,
        low_length[0],
        low_length[1],
        low_position[0],
        low_position[1],
        high_length[0],
        high_length[1],
        high_position[0],
        high_position[1],
        s.left,
        s.zeros,
    ]);
    state[18..38].fill(0);
}
