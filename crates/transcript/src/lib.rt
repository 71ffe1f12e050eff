// What a stretch of a line comes to: its reports as lines on a page, and as counts (document 01, "Display, tally, capture program"). A program
// reads, calls, and writes; all else it does is here. The two areas are two parameters, as in link.
#![tactic(auto)]

ghost use Rattle.std.specs.Prelude.{◌≡◌, ◌≤◌, ◌<◌, length};
ghost use Rattle.std.specs.Prelude.{Some};
ghost use Rattle.link.specs.Answers.{report_answer};
ghost use Rattle.link.specs.Receiver.{opened_receiver};
ghost use Rattle.link.specs.Runs.{received};
ghost use Rattle.reader.specs.NothingLost.{reports};
ghost use Rattle.tally.specs.Sums.{noted, is_counted};
ghost use Rattle.lines.specs.Lines.{append};
ghost use Rattle.lines.specs.Pages.{page_of};
ghost use Rattle.transcript.specs.Transcript.{shown_of, line_for, longest_line, print_on, print};
ghost use Rattle.transcript.specs.LinesOfReports.{LinesOfReports, RefusedCalls};
ghost use Rattle.transcript.specs.NothingLeftOut.{NothingLeftOut, AllPrinted, AllCounted};

use lines::Page;
use link::Settings;
use link::receiver::{Receiver, Report};
use reader::Reached;
use tally::Tally;

// ---- the receiver

// A receiver with document 01's settings, ZXE and PRE on, and with plain reading on, its map empty (document 02, slip 5): what `capture` and `count`
// read with. By its contract the opening is not refused.
#[tactic(auto, unfolding(link::specs::Agreed::agreed))]
pub fn capture_receiver() -> Receiver
    ensures { result ≡ opened_receiver (record { octet = 3; width = 16; limit = 2048 }) (Some 0) }
{
    let settings = Settings {
        octet: 3,
        width: 16,
        limit: 2048,
    };
    link::receiver::open(settings, Some(0)).unwrap()
}

// ---- lines

// No line is longer: 3 octets for each of the largest packet's, and 10.
pub fn longest_line(settings: Settings) -> usize
    ensures { result ≡ longest_line settings }
{
    3 * (settings.limit as usize) + 10
}

// How many octets of the page are filled, and how many of the stretch were used.
#[derive(Clone, Copy)]
pub struct Printed {
    pub filled: usize,
    pub used: usize,
}

// The octets of a reported packet; of any other report none.
fn octets<'a>(report: Report, first: &'a [u8], second: &'a [u8]) -> &'a [u8]
    ensures { result.now ≡ shown_of (report_answer report) first.now second.now }
{
    match report {
        Report::Packet {
            second: in_second,
            length,
        } => tally::shown(in_second, length, first, second),
        _ => &[],
    }
}

// Whether an answer is a report: Quiet is none, nor is a refusal of the call itself.
fn is_report(answer: Report) -> bool
    ensures { result ≡ is_counted (report_answer answer) }
{
    match answer {
        Report::Quiet => false,
        Report::Packet { .. } | Report::Held { .. } => true,
        Report::Refused(n) => tally::of_frame(n),
    }
}

// The line for an answer, put on the page, if it is a report.
fn line(answer: Report, first: &[u8], second: &[u8], page: &mut Page)
    ensures same_area { page.new.area.ghost_name ≡ page.old.area.ghost_name }
    ensures appended { page_of page.new ≡ append (page_of page.old) (line_for (report_answer answer) first.now second.now) }
{
    if is_report(answer) {
        page.report(answer, octets(answer, first, second));
    }
}

// Reads on and puts the line of each report on the page, behind what is filled, until the octets are used up or the page has no room for the
// longest line; so many octets are used.
fn print_on(
    state: &mut Receiver,
    octets: &[u8],
    first: &mut [u8],
    second: &mut [u8],
    page: &mut Page,
) -> usize
    ensures same_area { page.new.area.ghost_name ≡ page.old.area.ghost_name }
    ensures used_after { record {
      after = record { state = state.new; first = first.new; second = second.new };
      page = page_of page.new;
      used = result;
    }
        ≡ print_on (record { state = state.old; first = first.old; second = second.old }) octets.now (page_of page.old) }
{
    let mut rest = octets;
    while !rest.is_empty()
        && page.filled.saturating_add(longest_line(state.settings)) <= page.area.len()
    {
        let reached = reader::read_on(state, rest, first, second);
        line(reached.report, first, second, page);
        rest = &rest[reached.used..];
    }
    octets.len() - rest.len()
}

// Reads on over the octets and puts the line of each report on the page, from its start.
pub fn print(
    state: &mut Receiver,
    octets: &[u8],
    first: &mut [u8],
    second: &mut [u8],
    page: &mut [u8],
) -> Printed
    ensures used_after { record {
      after = record { state = state.new; first = first.new; second = second.new };
      page = record { area = page.new; filled = result.filled };
      used = result.used;
    }
        ≡ print
        (record { state = state.old; first = first.old; second = second.old })
        octets.now
        page.old }
    ensures used_in_bounds { (result.used ≤ length octets.now)
        × (result.filled ≤ length page.old)
        × (0 < length octets.now → longest_line state.old.settings ≤ length page.old → 1 ≤ result.used)
        × (state.new.settings ≡ state.old.settings) }
{
    let mut page = Page {
        area: page,
        filled: 0,
    };
    let used = print_on(state, octets, first, second, &mut page);
    Printed {
        filled: page.filled,
        used,
    }
}

// ---- counts

// Every report of the octets noted. (The loop of `print_on`, which stops at a full page; here nothing does.)
pub fn count(
    state: &mut Receiver,
    counts: &mut Tally,
    octets: &[u8],
    first: &mut [u8],
    second: &mut [u8],
)
    ensures counts_value { counts.new
        ≡ noted counts.old (reports (record { state = state.old; first = first.old; second = second.old }) octets.now) }
    ensures second_after { record { state = state.new; first = first.new; second = second.new }
        ≡ received (record { state = state.old; first = first.old; second = second.old }) octets.now }
{
    let mut rest = octets;
    while !rest.is_empty() {
        let Reached { report, used } = reader::read_on(state, rest, first, second);
        counts.note_in(report);
        rest = &rest[used..];
    }
}

// ---- claims

// What is claimed of this crate: each theorem that docs/DEMANDS.md names.
pub fn claims()
    ensures { LinesOfReports × RefusedCalls × NothingLeftOut × AllPrinted × AllCounted }
{}
