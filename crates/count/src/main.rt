// Counts the reports of a capture: raw octets of a line, at its end the tally's fifteen counts on standard output, a line each. Each file that it is called
// with is a capture of its own. It reads with document 01's settings, as the capture reader does.
#![tactic(auto)]

use files::{Capture, Output, Program, Stopped, System};
use lines::Page;
use link::receiver::Receiver;
use std::io;
use std::io::Print;
use std::process::ExitCode;
use tally::Tally;

fn main(rt: HostRuntime) -> ExitCode {
    let program = Program {
        rt: &rt,
        name: b"count",
    };
    files::status(program.each_capture(|capture, output| print(&program, capture, output)))
}

// The counts of a capture, from its first octet to its last.
fn print<R: System>(
    program: &Program<R>,
    capture: &mut Capture<R::File, R::Reader>,
    output: &mut Output,
) -> Result<(), Stopped> {
    let mut counter = Counter::new();
    program.read_all(
        capture,
        b"cannot be read further; the counts are those of what came before",
        |octets| {
            counter.count(octets);
            Ok(())
        },
    )?;
    program.head(capture.file.name, output)?;
    print_counts(program.rt, &counter.counts).or_else(|error| program.stop(error))
}

// The receiver between reads, its two areas, and what was counted.
#[derive(Drop)]
struct Counter {
    state: Receiver,
    first: [u8; 2051],
    second: [u8; 2051],
    counts: Tally,
}

impl Counter {
    fn new() -> Counter {
        Counter {
            state: transcript::capture_receiver(),
            first: [0; 2051],
            second: [0; 2051],
            counts: Tally::default(),
        }
    }

    fn count(&mut self, octets: &[u8]) {
        transcript::count(
            &mut self.state,
            &mut self.counts,
            octets,
            &mut self.first,
            &mut self.second,
        );
    }
}

fn print_counts<P: Print>(to: &P, counts: &Tally) -> io::Result<()> {
    let mut area = [0; 4096];
    let mut page = Page {
        area: &mut area,
        filled: 0,
    };
    for (place, count) in counts.counts.iter().enumerate() {
        print_count(&mut page, place, *count);
    }
    to.write_all(page.written())
}

// A count's line: its name and the number. The places are those of the tally's array.
fn print_count(page: &mut Page, place: usize, count: u64) {
    match tally::refusal_at(place) {
        Some(refusal) => {
            page.text(b"refused-");
            page.decimal(refusal as u64);
        }
        None => page.text(match place {
            0 => b"packets",
            1 => b"held",
            _ => b"held-replaced",
        }),
    }
    page.text(b" ");
    page.decimal(count);
    page.text(b"\n");
}
