// Octet-stuffed framing, plain PPP (document 02, slip 5; RFC 1662, section 4): the maps, its sender, and what an octet says on reading.
#![tactic(auto)]

ghost use Rattle.std.specs.Prelude.{◌≡◌, ◌+◌, ◌≤◌, ◌++◌, ltb, length};
ghost use Rattle.cobs.specs.CodeBlocks.{frame};
ghost use Rattle.plain.specs.Area.{write};
ghost use Rattle.plain.specs.Maps.{removed, marked, marking, with_framing, lacks, marks_wrongly, refused_pair, marks_ok};
ghost use Rattle.plain.specs.Stuffing.{toggled, stuffed, line, send, taken};
ghost use Rattle.plain.specs.ReadBack.{SentReadsBack, RemovedLeaveNoTrace, StuffingCases};

use fcs::Register;
use std::convert::AsSlice;

// Announces an escaped octet.
pub const ESCAPE: u8 = 0x7d;

// An escaped octet's other form.
fn toggle(octet: u8) -> u8
    ensures { result ≡ toggled octet }
{
    octet ^ 0x20
}

// ---- the maps

// A sending map is a plain array and no struct of its own, which would have no fact to keep: maps that are refused are handed in too.

// Whether the receiving map removes an octet.
#[tactic(auto, unfolding(crate::specs::Maps::removed))]
pub fn removed(map: u32, octet: u8) -> bool
    ensures { result ≡ removed map octet }
{
    octet < 0x20 && (map >> octet) % 2 == 1
}

// Whether the sending map has an octet sent escaped.
#[tactic(auto, unfolding(crate::specs::Maps::marked))]
pub fn marked(marks: &[u8; 32], octet: u8) -> bool
    ensures { result ≡ marked marks.now octet }
{
    (marks[(octet / 8) as usize] >> (octet % 8)) % 2 == 1
}

// One mark more.
#[tactic(auto, using(crate::proofs::Rules::marking))]
fn mark(marks: &mut [u8; 32], octet: u8)
    ensures { marks.new ≡ marking octet marks.old }
{
    marks[(octet / 8) as usize] |= 1 << (octet % 8);
}

// The map with 7D and 7E, which a sending map always has.
#[tactic(auto, unfolding(crate::specs::Maps::with_framing))]
pub fn with_framing(mut marks: [u8; 32]) -> [u8; 32]
    ensures { result ≡ with_framing marks }
{
    mark(&mut marks, ESCAPE);
    mark(&mut marks, cobs::FLAG);
    marks
}

// Whether the sending map lacks a mark of the receiving one.
fn lacks(map: u32, marks: &[u8; 32]) -> bool
    ensures { result ≡ lacks map marks.now }
{
    (0..0x20).any(|octet| removed(map, octet) && !marked(marks, octet))
}

// Whether an octet would be sent escaped as a flag (5E) or as one that may be removed (20 to 3F).
#[tactic(auto, unfolding(crate::specs::Maps::marks_wrongly))]
fn marks_wrongly(marks: &[u8; 32]) -> bool
    ensures { result ≡ marks_wrongly marks.now }
{
    marked(marks, 0x5e) || (0x20..0x40).any(|octet| marked(marks, octet))
}

// Whether 19 refuses a pair of maps.
#[tactic(auto, unfolding(crate::specs::Maps::refused_pair))]
pub fn refused_pair(map: u32, marks: &[u8; 32]) -> bool
    ensures { result ≡ refused_pair map marks.now }
{
    lacks(map, marks) || marks_wrongly(marks)
}

// Whether a sending map that is handed in is in bounds.
#[tactic(auto, unfolding(crate::specs::Maps::marks_ok))]
pub fn marks_ok(marks: &[u8; 32]) -> bool
    ensures { result ≡ marks_ok marks.now }
{
    marked(marks, ESCAPE) && marked(marks, cobs::FLAG) && !marks_wrongly(marks)
}

// ---- the sender

// Refusal 2: the area is shorter than what is to be written.
#[derive(Clone, Copy, Debug, PartialEq, Eq)]
pub struct NoRoom;

// How many octets are written for some.
fn stuffed_length(octets: &[u8], marks: &[u8; 32]) -> usize
    ensures { result ≡ length (stuffed marks.now octets.now) }
{
    octets.len() + octets.iter().filter(|&&octet| marked(marks, octet)).count()
}

// Octets, stuffed, into an area from a place on; answers the place behind them. The place goes up by hand, since an escape is two octets.
#[tactic(auto, using(crate::proofs::Rules::stuffing))]
fn stuff(octets: &[u8], marks: &[u8; 32], area: &mut [u8], at: usize) -> usize
    requires { at + length (stuffed marks.now octets.now) ≤ length area.old }
    ensures area_after { area.new ≡ write area.old at (stuffed marks.now octets.now) }
    ensures value { result ≡ at + length (stuffed marks.now octets.now) }
{
    let mut end = at;
    for &octet in octets {
        if marked(marks, octet) {
            area[end] = ESCAPE;
            area[end + 1] = toggle(octet);
            end += 2;
        } else {
            area[end] = octet;
            end += 1;
        }
    }
    end
}

// Whether a packet, the FCS behind it and the flag have no room: they are more octets than it.
#[tactic(auto, using(crate::proofs::Rules::room))]
fn no_room(packet: &[u8], fcs: &[u8], marks: &[u8; 32], room: usize) -> bool
    ensures { result ≡ ltb room (length (line marks.now (packet.now ++ fcs.now))) }
{
    room <= stuffed_length(packet, marks).saturating_add(stuffed_length(fcs, marks))
}

// The same of the frame of a packet, with R's check.
pub fn too_long<R: Register>(packet: &[u8], marks: &[u8; 32], room: usize) -> bool
    ensures { result ≡ ltb room (length (line marks.now (frame R.check packet.now))) }
{
    no_room(packet, fcs::fcs::<R>(packet).as_slice(), marks, room)
}

// The frame of a packet and its flag, from an area's start; refused exactly where they do not fit.
#[tactic(auto, using(crate::proofs::Rules::sending))]
pub fn send<R: Register>(packet: &[u8], marks: &[u8; 32], area: &mut [u8]) -> Result<usize, NoRoom>
    ensures { record { answer = result; area = area.new }
        ≡ send marks.now (frame R.check packet.now) area.old }
{
    let check = fcs::fcs::<R>(packet);
    let fcs = check.as_slice();
    if no_room(packet, fcs, marks, area.len()) {
        return Err(NoRoom);
    }
    let at = stuff(packet, marks, area, 0);
    let end = stuff(fcs, marks, area, at);
    area[end] = cobs::FLAG;
    Ok(end + 1)
}

// ---- the receiver

// What an octet that is no flag says on reading.
#[derive(Clone, Copy, Debug, PartialEq, Eq)]
pub enum Taken {
    Removed,
    // an escape is open from now on
    Escape,
    // an octet of the frame, and no escape is open
    Data(u8),
}

// escaped: an escape is open.
#[tactic(auto, unfolding(crate::specs::Stuffing::taken))]
pub fn take(map: u32, escaped: bool, octet: u8) -> Taken
    ensures { result ≡ taken map escaped octet }
{
    if removed(map, octet) {
        Taken::Removed
    } else if escaped {
        Taken::Data(toggle(octet))
    } else if octet == ESCAPE {
        Taken::Escape
    } else {
        Taken::Data(octet)
    }
}

// What is claimed of this crate: each theorem that docs/DEMANDS.md names.
pub fn claims()
    ensures { SentReadsBack × RemovedLeaveNoTrace × StuffingCases }
{}
