// The files that a program is called with, and what it says of them: each argument names one; the argument '-', or no argument at all, is standard
// input. What is read and written no contract can say. The contracts here say the rest: that there is a file, how long its name is, what is kept of the output.
#![tactic(auto)]

ghost use Rattle.std.specs.Prelude.{true, false, Err, ◌≡◌, ◌≢◌, ◌≤◌, ◌↔◌, length, IsTrue, IsOk, IsSome, IsErr, IfSome, OnErr};
ghost use Rattle.std.specs.Io.{ReadsAtMost};
ghost use Rattle.std.specs.IoError.{error_kind};
ghost use Rattle.std.specs.Process.{exit_status};

use std::env::{Env, FillError};
use std::fmt::Write;
use std::io::{Error, ErrorKind, Input, Print, Read, Stderr};
use std::process::ExitCode;
use std::rt::Files;
use std::{fmt, fs, io};

// What a program takes of the system: its arguments, the files, standard input, standard output, and standard error.
pub trait System: Env + Files + Input + Print {
    type Errors: Print + Drop;

    fn errors(&self) -> Self::Errors;
}

impl System for HostRuntime {
    type Errors = Stderr;

    fn errors(&self) -> Stderr {
        self.stderr()
    }
}

// A program: the system under it, and its name, which each message begins with.
#[derive(Drop)]
pub struct Program<'a, R> {
    pub rt: &'a R,
    pub name: &'a [u8],
}

// Where the octets of a file come from.
#[derive(Drop)]
pub enum Source<F, I> {
    Standard(I),
    Opened(F),
}

// A file to read, and its name. Standard input has a name of no octets, and stays open: it may be named twice, and has nothing left the second time.
#[derive(Drop)]
pub struct File<'n, F, I> {
    pub source: Source<F, I>,
    pub name: &'n [u8],
}

// A capture that is read, and its octets that were read last.
#[derive(Drop)]
pub struct Capture<'n, F, I> {
    pub file: File<'n, F, I>,
    buffer: [u8; 65536],
    got: usize,
    ghost within: { got ≤ 65536 },
}

// What a program prints, between two files. headings: each file's part is headed by its name; begun: there is a part already.
#[derive(Clone, Copy)]
pub struct Output {
    pub headings: bool,
    pub begun: bool,
}

// Why a program prints nothing more. Cut: standard output has failed, or a fault was found, and that was complained of; Deserted: nobody reads on.
#[derive(Clone, Copy)]
pub enum Stopped {
    Cut,
    Deserted,
}

// The system's numbers for what is found wrong before it is asked.
const NO_SUCH_ARGUMENT: i32 = 22;

const NAME_TOO_LONG: i32 = 36;

const NAME_NO_TEXT: i32 = 84;

// ---- the arguments

impl<'a, R: System> Program<'a, R> {
    // The files are the arguments 1, 2 and so on, up to this number, which is none of them.
    pub fn end(&self) -> usize
        ensures { 2 ≤ result }
    {
        let words = (0..usize::MAX)
            .take_while(|&number| self.is_argument(number))
            .count();
        words.max(2)
    }

    // An argument that has no room is there.
    fn is_argument(&self, number: usize) -> bool {
        !matches!(self.rt.arg(number, &mut []), Err(FillError::NotPresent))
    }

    fn standard_input(&self) -> File<'static, R::File, R::Reader>
        ensures { length result.name.now ≡ 0 }
    {
        File {
            source: Source::Standard(self.rt.reader()),
            name: &[],
        }
    }

    // Opens the file of an argument, whose name is put into the area. One that cannot be opened is complained of.
    pub fn open<'n>(
        &self,
        number: usize,
        name: &'n mut [u8],
    ) -> Option<File<'n, R::File, R::Reader>>
        ensures { IfSome result (λ file. length file.name.now ≤ length name.old) }
    {
        if !self.is_argument(1) {
            return Some(self.standard_input());
        }
        let refusal = match self.rt.arg(number, name) {
            Ok(n) => return self.find(&name[..n]),
            Err(FillError::TooLong) => NAME_TOO_LONG,
            Err(FillError::NotPresent) => NO_SUCH_ARGUMENT,
        };
        self.unnamed(name, Error::from_raw_os_error(refusal));
        None
    }

    // The file of a name.
    fn find<'n>(&self, name: &'n [u8]) -> Option<File<'n, R::File, R::Reader>>
        ensures { IfSome result (λ file. length file.name.now ≤ length name.now) }
    {
        if matches!(name, b"-") {
            return Some(self.standard_input());
        }
        let file = self.opened(name, open_by_name(self.rt, name))?;
        Some(File {
            source: Source::Opened(file),
            name,
        })
    }

    // A file, if it could be opened, or else that is complained of.
    fn opened(&self, name: &[u8], file: io::Result<R::File>) -> Option<R::File>
        ensures { IsSome result ↔ IsOk file }
    {
        match file {
            Ok(file) => Some(file),
            Err(error) => {
                self.unopened(name, error);
                None
            }
        }
    }

    fn unopened(&self, name: &[u8], error: Error) {
        let shown = if name.is_empty() { b"''" } else { name };
        self.fail(shown, b"cannot be read", error)
    }

    // An argument longer than any file's name: it is known by its first octets.
    fn unnamed(&self, name: &[u8], error: Error) {
        self.say(self.name);
        self.say(b": ");
        if 32 <= name.len() {
            self.say(&name[..32]);
        }
        self.give_reason(b"..: cannot be read", error);
    }

    // ---- messages, on standard error

    pub fn say(&self, words: &[u8]) {
        let _ = self.rt.errors().write_all(words);
    }

    // How a message about a file begins: PROGRAM: NAME:
    pub fn complain(&self, name: &[u8]) {
        self.say(self.name);
        self.say(b": ");
        let _ = write_name(&self.rt.errors(), name);
        self.say(b": ");
    }

    // A message about a file, with the system's reason for what has just failed.
    pub fn fail(&self, name: &[u8], what: &[u8], error: Error) {
        self.complain(name);
        self.give_reason(what, error);
    }

    // How a message ends: what failed, and the system's reason.
    pub fn give_reason(&self, what: &[u8], error: Error) {
        let mut reason = Reason {
            octets: [0; 128],
            length: 0,
        };
        let _ = write!(reason, "{error}");
        self.say(what);
        self.say(b": ");
        self.say(reason.words());
        self.say(b"\n");
    }
}

// The library opens files by names that are UTF-8 alone.
fn open_by_name<R: System>(rt: &R, name: &[u8]) -> io::Result<R::File> {
    match std::str::from_utf8(name) {
        Ok(path) => fs::open(rt, path),
        Err(_) => Err(Error::from_raw_os_error(NAME_NO_TEXT)),
    }
}

fn write_name<P: Print>(to: &P, name: &[u8]) -> io::Result<()> {
    to.write_all(if name.is_empty() {
        b"standard input"
    } else {
        name
    })
}

impl<F: Read, I: Read> File<'_, F, I> {
    // The next octets of a file, as many as one call of the system gives; none at its end.
    pub fn read(&mut self, area: &mut [u8]) -> io::Result<usize>
        ensures { ReadsAtMost result area.new }
    {
        match &mut self.source {
            Source::Standard(input) => input.read(area),
            Source::Opened(opened) => opened.read(area),
        }
    }
}

// An error as the library prints it: the system's words, and behind them its number. What has no room is left out: there is no heap for a longer one.
#[derive(Drop)]
struct Reason {
    octets: [u8; 128],
    length: usize,
    ghost within: { length ≤ 128 },
}

impl Write for Reason {
    fn write_str(&mut self, words: &str) -> fmt::Result {
        let n = words.len().min(128 - self.length);
        self.octets[self.length..self.length + n].copy_from_slice(&words.as_bytes()[..n]);
        self.length += n;
        Ok(())
    }
}

const NUMBER: &[u8] = b" (os error ";

impl Reason {
    // The words without the number.
    fn words(&self) -> &[u8] {
        let all = &self.octets[..self.length];
        match (0..all.len()).find(|&at| all[at..].starts_with(NUMBER)) {
            Some(end) => &all[..end],
            None => all,
        }
    }
}

// ---- captures

impl<'a, R: System> Program<'a, R> {
    // Each file that the program is called with is a capture: it is begun, and handed on. The first of them that stops the program ends it; nothing else does.
    pub fn each_capture<
        E: FnMut(&mut Capture<R::File, R::Reader>, &mut Output) -> Result<(), Stopped>,
    >(&self, mut each: E) -> Result<(), Stopped>
        requires { E.IsAlwaysCallable each }
        ensures { OnErr result ((before : E) × (capture : _) × (output : _) × (capture' : _) × (output' : _) × (after : E) × E.step before capture output result capture' output' after) }
    {
        let end = self.end();
        let mut output = Output::new(end);
        for number in 1..end {
            let mut name = [0; 4096];
            if let Some(file) = self.open(number, &mut name) {
                // made where it stays: a function that returned it would have its octets moved
                let mut capture = Capture {
                    file,
                    buffer: [0; 65536],
                    got: 0,
                };
                if self.begin(&mut capture) {
                    each(&mut capture, &mut output)?;
                }
            }
        }
        Ok(())
    }

    // Reads the first octets of a capture. The answer says whether it could; one that cannot be read is complained of.
    fn begin(&self, capture: &mut Capture<R::File, R::Reader>) -> bool {
        match capture.file.read(&mut capture.buffer) {
            Ok(got) => {
                capture.got = got;
                true
            }
            Err(error) => {
                self.fail(capture.file.name, b"cannot be read", error);
                false
            }
        }
    }

    // Hands on a capture's octets, from the first to the last. Where it cannot be read further, that is complained of, and does not stop the program.
    pub fn read_all<E: FnMut(&[u8]) -> Result<(), Stopped>>(
        &self,
        capture: &mut Capture<R::File, R::Reader>,
        unread: &[u8],
        mut each: E,
    ) -> Result<(), Stopped>
        requires { E.IsAlwaysCallable each }
        ensures { OnErr result ((before : E) × (octets : _) × (after : E) × E.step before octets result after) }
    {
        // Counted, since nothing says how often a file can be read.
        for _ in 0..u64::MAX {
            if capture.got == 0 {
                break;
            }
            each(&capture.buffer[..capture.got])?;
            capture.got = match capture.file.read(&mut capture.buffer) {
                Ok(got) => got,
                Err(error) => {
                    self.fail(capture.file.name, unread, error);
                    0
                }
            };
        }
        Ok(())
    }
}

// ---- standard output

// Nobody reads on.
pub fn is_deserted(error: Error) -> bool
    ensures { IsTrue result ↔ (error_kind error ≡ ErrorKind.BrokenPipe) }
{
    error.kind() == ErrorKind::BrokenPipe
}

// The exit status of a program: 141 where nobody reads on, as if the system's signal for that had ended it, and 0 else.
pub fn status(ended: Result<(), Stopped>) -> ExitCode
    ensures deserted { ended ≡ Err Stopped.Deserted → exit_status result ≡ 141 }
    ensures otherwise { ended ≢ Err Stopped.Deserted → exit_status result ≡ 0 }
{
    match ended {
        Err(Stopped::Deserted) => ExitCode::from(141),
        _ => ExitCode::SUCCESS,
    }
}

impl Output {
    // Nothing is printed yet.
    fn new(end: usize) -> Output
        ensures { result.begun ≡ false }
    {
        Output {
            headings: 2 < end,
            begun: false,
        }
    }
}

impl<'a, R: System> Program<'a, R> {
    // Standard output has failed: it is complained of, but for where nobody reads on, and nothing more is printed.
    pub fn stop(&self, error: Error) -> Result<(), Stopped>
        ensures stops { IsErr result }
        ensures deserted { (result ≡ Err Stopped.Deserted) ↔ (error_kind error ≡ ErrorKind.BrokenPipe) }
    {
        if is_deserted(error) {
            return Err(Stopped::Deserted);
        }
        self.say(self.name);
        self.give_reason(
            b": standard output: cannot be written, and the rest is missing there",
            error,
        );
        Err(Stopped::Cut)
    }

    // Begins a file's part: where there are several files, by ==> NAME <== and, from the second on, an empty line before it, as head and tail do.
    pub fn head(&self, name: &[u8], output: &mut Output) -> Result<(), Stopped>
        ensures { (output.new.begun ≡ true) × (output.new.headings ≡ output.old.headings) }
    {
        let parted = output.begun;
        output.begun = true;
        if !output.headings {
            return Ok(());
        }
        write_heading(self.rt, name, parted).or_else(|error| self.stop(error))
    }
}

fn write_heading<R: System>(rt: &R, name: &[u8], parted: bool) -> io::Result<()> {
    if parted {
        rt.write_all(b"\n")?;
    }
    rt.write_all(b"==> ")?;
    write_name(rt, name)?;
    rt.write_all(b" <==\n")
}
