// The plain sender's state in octets (specs/Layout.antt).
#![tactic(auto, unfolding(crate::specs::Layout::spell_plain_sender, crate::specs::Layout::plain_sender_in, crate::specs::Layout::plain_sender_octets))]

ghost use Rattle.std.specs.Prelude.{◌≡◌};
ghost use Rattle.kutarehopa.specs.Layout.{octets_from, spell_plain_sender, plain_sender_in, plain_sender_octets, over};

use link::plain_sender::PlainSender;

// The marks in a plain sender's octets.
fn marks_in(state: &[u8; 64]) -> [u8; 32]
    ensures { result ≡ octets_from state.now 4 32 }
{
    let mut marks = [0; 32];
    marks.copy_from_slice(&state[4..36]);
    marks
}

// Whether octets spell a state. A test of its own, and no Option as in unpack of the others: a refusal looks at the state too.
pub(crate) fn spells(state: &[u8; 64]) -> bool
    ensures { result ≡ spell_plain_sender state.now }
{
    state[0] == 1
}

// The state that they spell.
pub(crate) fn unpack(state: &[u8; 64]) -> PlainSender
    ensures { result ≡ plain_sender_in state.now }
{
    PlainSender {
        width: state[1],
        limit: crate::number_at(state, 2),
        marks: marks_in(state),
    }
}

// Its octets.
pub(crate) fn pack(state: &mut [u8; 64], s: PlainSender)
    ensures { state.new ≡ over (plain_sender_octets s) state.old }
{
    let limit = s.limit.to_le_bytes();
    state[..4].copy_from_slice(&[1, s.width, limit[0], limit[1]]);
    state[4..36].copy_from_slice(&s.marks);
}
