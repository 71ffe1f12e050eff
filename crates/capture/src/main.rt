// The capture reader (document 01, "Display, tally, capture program"): raw octets of a line, a line for each report on standard output. Each file that it
// is called with is a capture of its own. It reads with document 01's settings (DECISIONS.md). A frame that is not closed prints nothing.
#![tactic(auto)]

ghost use Rattle.std.specs.Prelude.{◌≡◌, ◌≤◌};
ghost use Rattle.transcript.specs.Transcript.{longest_line};

use files::{Capture, Output, Program, Stopped, System};
use link::receiver::Receiver;
use std::io;
use std::io::Print;
use std::process::ExitCode;

fn main(rt: HostRuntime) -> ExitCode {
    let program = Program {
        rt: &rt,
        name: b"capture",
    };
    files::status(program.each_capture(|capture, output| print(&program, capture, output)))
}

// The lines of a capture, from its first octet to its last.
fn print<R: System>(
    program: &Program<R>,
    capture: &mut Capture<R::File, R::Reader>,
    output: &mut Output,
) -> Result<(), Stopped> {
    program.head(capture.file.name, output)?;
    let mut lines = Lines::new();
    program.read_all(
        capture,
        b"cannot be read further; the lines are those of what came before",
        |octets| {
            lines
                .write(program.rt, octets)
                .or_else(|error| program.stop(error))
        },
    )
}

// The receiver between reads, its two areas, and a page, which has room for the longest line. (The first three stand in count's Counter too: a struct
// of them would be taken apart again at the call.)
#[derive(Drop)]
struct Lines {
    state: Receiver,
    first: [u8; 2051],
    second: [u8; 2051],
    page: [u8; 65536],
    ghost room: { longest_line state.settings ≤ 65536 },
}

impl Lines {
    #[tactic(auto, unfolding(link::specs::Agreed::agreed))]
    fn new() -> Lines {
        Lines {
            state: transcript::capture_receiver(),
            first: [0; 2051],
            second: [0; 2051],
            page: [0; 65536],
        }
    }

    // The lines of a stretch of octets, page after page, by the same settings.
    fn write<P: Print>(&mut self, to: &P, octets: &[u8]) -> io::Result<()>
        ensures { self.new.state.settings ≡ self.old.state.settings }
    {
        let mut rest = octets;
        while !rest.is_empty() {
            let printed = transcript::print(
                &mut self.state,
                rest,
                &mut self.first,
                &mut self.second,
                &mut self.page,
            );
            rest = &rest[printed.used..];
            to.write_all(&self.page[..printed.filled])?;
        }
        Ok(())
    }
}
