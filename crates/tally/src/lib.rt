// The display of a reported packet, and the tally of reports (document 01, "Display, tally, capture program"; document 02, slips 5 and 8).
#![tactic(auto)]

ghost use Rattle.std.specs.Prelude.{◌≡◌};
ghost use Rattle.link.specs.Answers.{report_answer};
ghost use Rattle.tally.specs.Display.{shown, ShowsThePacket, WithinTheArea, BeyondTheArea};
ghost use Rattle.tally.specs.Counts.{largest_count, empty_tally, place, of_frame, refusal_at, note};
ghost use Rattle.tally.specs.Sums.{FramesCounted, NamedRightly, LargestOf64Bits, EachCount, AddUp, FromEmpty};

use link::receiver::Report;

// ---- display

// The octets of a reported packet, a part of the area that it is in: nothing is copied. in_second, n: the `second` and `length` of its
// `Report::Packet`. A length beyond that area shows the area's empty beginning.
pub fn shown<'a>(in_second: bool, n: u16, first: &'a [u8], second: &'a [u8]) -> &'a [u8]
    ensures { result.now ≡ shown in_second n first.now second.now }
{
    let area = if in_second { second } else { first };
    area.get(..n as usize).unwrap_or(&[])
}

// ---- tally

// The places of the counts, numbers since document 01 wants an array: packets, held with nothing replaced, held with replacement, from REFUSALS
// on refusals 5 to 14 in order, 18 and 21.
const PACKETS: usize = 0;

const HELD: usize = 1;

const HELD_REPLACING: usize = 2;

const REFUSALS: usize = 3;

const ESCAPE_OPEN_PLACE: usize = 13;

const CHANGED_PLACE: usize = 14;

// How many counts there are.
pub const COUNTS: usize = 15;

// The refusals that are counted, those of frames: 5 to 14,
const FIRST_REFUSAL: u8 = 5;

const LAST_REFUSAL: u8 = 14;

// 18, of a flag behind an open escape,
const ESCAPE_OPEN: u8 = 18;

// and 21, of what was held and is changed.
const CHANGED: u8 = 21;

// A count at its largest stays, and is told by this.
pub const LARGEST: u64 = u64::MAX;

#[derive(Clone, Copy, Debug, PartialEq, Eq)]
pub struct Tally {
    pub counts: [u64; COUNTS],
}

// All counts 0. By hand, since a derive has no contract of its own.
impl Default for Tally {
    ghost is_default = { λ t. t ≡ empty_tally };

    fn default() -> Tally {
        Tally {
            counts: [0; COUNTS],
        }
    }
}

impl Tally {
    // A report noted: one count is raised, or none. By value, and below on a tally that is lent: the forms that document 01 names.
    pub fn note(mut self, report: Report) -> Tally
        ensures { result ≡ note self (report_answer report) }
    {
        if let Some(place) = place(report) {
            self.counts[place] = self.counts[place].saturating_add(1);
        }
        self
    }

    // The same on a tally that is lent.
    pub fn note_in(&mut self, report: Report)
        ensures { self.new ≡ note self.old (report_answer report) }
    {
        *self = self.note(report);
    }
}

// Where a report is counted.
fn place(report: Report) -> Option<usize>
    ensures { result ≡ place (report_answer report) }
{
    match report {
        Report::Packet { .. } => Some(PACKETS),
        Report::Held { replaced, .. } => Some(if replaced { HELD_REPLACING } else { HELD }),
        Report::Refused(n @ FIRST_REFUSAL..=LAST_REFUSAL) => Some(
            REFUSALS + (n - FIRST_REFUSAL) as usize,
        ),
        Report::Refused(ESCAPE_OPEN) => Some(ESCAPE_OPEN_PLACE),
        Report::Refused(CHANGED) => Some(CHANGED_PLACE),
        Report::Quiet | Report::Refused(_) => None,
    }
}

// Whether a refusal is one of a frame; any other is one of a call.
pub fn of_frame(n: u8) -> bool
    ensures { result ≡ of_frame n }
{
    matches!(n, FIRST_REFUSAL..=LAST_REFUSAL | ESCAPE_OPEN | CHANGED)
}

// The refusal that is counted at a place.
pub fn refusal_at(place: usize) -> Option<u8>
    ensures { result ≡ refusal_at place }
{
    match place {
        REFUSALS..ESCAPE_OPEN_PLACE => Some((place - REFUSALS) as u8 + FIRST_REFUSAL),
        ESCAPE_OPEN_PLACE => Some(ESCAPE_OPEN),
        CHANGED_PLACE => Some(CHANGED),
        _ => None,
    }
}

// ---- claims

// What is claimed of this crate: each theorem that docs/DEMANDS.md names.
pub fn claims()
    ensures { ShowsThePacket × WithinTheArea × BeyondTheArea × FramesCounted × NamedRightly × LargestOf64Bits × EachCount × AddUp × FromEmpty × (LARGEST ≡ largest_count) }
{}
