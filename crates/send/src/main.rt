// The sender as a program: packets in, the octets of the line on standard output (docs/SEND.md). Each file that it is called with has a sender of its own.
#![tactic(auto)]

ghost use Rattle.std.specs.Prelude.{◌≡◌, ◌<◌, ◌≤◌, length, IfSome, IfOk};

use files::{File, Program, Stopped, System};
use link::sender::{Lane, Sender};
use link::{OpenError, Settings};
use std::io;
use std::io::{Error, Print, Read};
use std::process::ExitCode;

// The limit, where a file says none: document 01's.
const DEFAULT_LIMIT: u16 = 2048;

// What a file has before its records; place: where in it these begin, and first: their first octet, where that is read already.
#[derive(Clone, Copy)]
struct Head {
    settings: Settings,
    place: u64,
    first: Option<u8>,
}

// What is wrong before the records. Missing: the file ends there, as the words say.
#[derive(Drop)]
enum HeadFault {
    Unread(Error),
    Missing(&'static [u8]),
}

// A record: its lane's letter (any octet: a wrong one is a fault of the record that is carried out), how many octets are sent ahead of it, and its
// packet.
#[derive(Clone, Copy)]
struct Record<'a> {
    lane: u8,
    wait: usize,
    packet: &'a [u8],
}

// What ends a file's records early.
#[derive(Clone, Copy)]
enum Fault {
    Stopped(Stopped),
    Unread(Error),
    CutShort,
    WrongLane,
    Refused,
}

impl From<Stopped> for Fault {
    fn from(stopped: Stopped) -> Fault {
        Fault::Stopped(stopped)
    }
}

fn main(rt: HostRuntime) -> ExitCode {
    let program = Program {
        rt: &rt,
        name: b"send",
    };
    files::status(send_all(&program))
}

// The files one behind the other, up to the first that is not sent whole.
fn send_all<R: System>(program: &Program<R>) -> Result<(), Stopped> {
    for number in 1..program.end() {
        let mut name = [0; 4096];
        let Some(mut file) = program.open(number, &mut name) else {
            return Err(Stopped::Cut);
        };
        send(program, &mut file)?;
    }
    Ok(())
}

// A file, by a sender that is opened as its head says.
fn send<R: System>(
    program: &Program<R>,
    file: &mut File<R::File, R::Reader>,
) -> Result<(), Stopped> {
    let head = match read_head(file) {
        Ok(head) => head,
        Err(fault) => return complain_of_head(program, file.name, fault),
    };
    let sender = match link::sender::open(head.settings) {
        Ok(sender) => sender,
        Err(error) => return complain_of_settings(program, file.name, head.settings, error),
    };
    send_behind(program, file, sender, head)
}

// What is behind the head. (A function of its own, since line and input are large: made in the middle of one they are cleared at its entry too.)
fn send_behind<R: System>(
    program: &Program<R>,
    file: &mut File<R::File, R::Reader>,
    sender: Sender,
    head: Head,
) -> Result<(), Stopped> {
    let mut line = Line::new(program, sender, head.place);
    line.send_records(file, Input::new(head.first))
        .or_else(|fault| line.end(file.name, fault))
}

// ---- what is before the records

// The settings octet, the width behind a W where there is one, and the limit behind an M where there is one. Where the octet that may be one of these
// letters cannot be read, the records' first read says so.
fn read_head<F: Read, I: Read>(file: &mut File<F, I>) -> Result<Head, HeadFault> {
    let octet = needed(file, b"it is empty, there is no settings octet\n")?;
    let mut place = 1;
    let mut first = read_octet(file).unwrap_or(None);
    let mut width = 16;
    if first == Some(b'W') {
        width = needed(file, b"it is cut short, there is no width behind its W\n")?;
        first = read_octet(file).unwrap_or(None);
        place += 2;
    }
    let mut limit = DEFAULT_LIMIT;
    if first == Some(b'M') {
        limit = u16::from_be_bytes([limit_octet(file)?, limit_octet(file)?]);
        first = None;
        place += 3;
    }
    Ok(Head {
        settings: Settings {
            octet,
            width,
            limit,
        },
        place,
        first,
    })
}

fn limit_octet<F: Read, I: Read>(file: &mut File<F, I>) -> Result<u8, HeadFault> {
    needed(
        file,
        b"it is cut short, there are no two octets of a limit behind its M\n",
    )
}

// An octet that the file must have.
fn needed<F: Read, I: Read>(
    file: &mut File<F, I>,
    missing: &'static [u8],
) -> Result<u8, HeadFault> {
    match read_octet(file) {
        Ok(octet) => octet.ok_or(HeadFault::Missing(missing)),
        Err(error) => Err(HeadFault::Unread(error)),
    }
}

// The next octet, or none at the file's end.
fn read_octet<F: Read, I: Read>(file: &mut File<F, I>) -> io::Result<Option<u8>> {
    let mut octets = [0];
    let got = file.read(&mut octets)?;
    Ok(octets[..got].first().copied())
}

// ---- the records

// What is read of a file's records, and not yet taken: there is room for the longest, 65,540 octets, and more.
#[derive(Drop)]
struct Input {
    octets: [u8; 131072],
    kept: usize,
    ghost within: { kept ≤ 131072 },
}

impl Input {
    fn new(first: Option<u8>) -> Input {
        let mut octets = [0; 131072];
        match first {
            Some(octet) => {
                octets[0] = octet;
                Input { octets, kept: 1 }
            }
            None => Input { octets, kept: 0 },
        }
    }

    // Reads on behind what is kept. The answer says whether something came.
    fn read<F: Read, I: Read>(&mut self, file: &mut File<F, I>) -> io::Result<bool> {
        let got = file.read(&mut self.octets[self.kept..])?;
        self.kept += got;
        Ok(0 < got)
    }

    // Takes the first n octets.
    fn take(&mut self, n: usize)
        requires { n ≤ self.old.kept }
    {
        self.octets.copy_within(n..self.kept, 0);
        self.kept -= n;
    }
}

// The first record of a stretch, and what is behind it; none where it is not whole.
fn split_record(octets: &[u8]) -> Option<(Record<'_>, &[u8])>
    ensures { IfSome result (λ split. length split.1.now < length octets.now) }
{
    let [lane, wait_high, wait_low, high, low, behind @ ..] = octets else {
        return None;
    };
    let length = u16::from_be_bytes([*high, *low]) as usize;
    let (packet, rest) = behind.split_at_checked(length)?;
    let record = Record {
        lane: *lane,
        wait: u16::from_be_bytes([*wait_high, *wait_low]) as usize,
        packet,
    };
    Some((record, rest))
}

// ---- the line

// A sender with its two lanes, each with room for the frame of a packet of the largest limit, 16,384 octets, with 32 bits; the octets on the page that
// are still to be written; and how many records were sent, and where in the file the next one begins.
#[derive(Drop)]
struct Line<'a, R> {
    program: &'a Program<'a, R>,
    state: Sender,
    low: [u8; 16388],
    high: [u8; 16388],
    page: [u8; 65536],
    filled: usize,
    records: u64,
    place: u64,
    ghost room: { filled < 65536 },
}

impl<'a, R: System> Line<'a, R> {
    fn new(program: &'a Program<'a, R>, state: Sender, place: u64) -> Line<'a, R> {
        Line {
            program,
            state,
            low: [0; 16388],
            high: [0; 16388],
            page: [0; 65536],
            filled: 0,
            records: 0,
            place,
        }
    }

    // The records of a file, and at its end what the sender holds.
    fn send_records(
        &mut self,
        file: &mut File<R::File, R::Reader>,
        mut input: Input,
    ) -> Result<(), Fault> {
        // Counted, since nothing says how often a file can be read.
        for _ in 0..u64::MAX {
            if !input.read(file).map_err(Fault::Unread)? {
                break;
            }
            let used = self.carry_out_all(&input.octets[..input.kept])?;
            input.take(used);
        }
        if 0 < input.kept {
            return Err(Fault::CutShort);
        }
        self.send(usize::MAX)?;
        self.print(self.filled)?;
        Ok(())
    }

    // The records of a stretch that are whole. The answer says how many octets they take.
    fn carry_out_all(&mut self, octets: &[u8]) -> Result<usize, Fault>
        ensures { IfOk result (λ used. used ≤ length octets.now) }
    {
        let mut left = octets;
        while let Some((record, rest)) = split_record(left) {
            self.carry_out(record)?;
            self.records = self.records.wrapping_add(1);
            self.place = self.place.wrapping_add((left.len() - rest.len()) as u64);
            left = rest;
        }
        Ok(octets.len() - left.len())
    }

    // Up to WAIT octets, then further ones while the lane holds a packet; then the record's own is loaded.
    fn carry_out(&mut self, record: Record) -> Result<(), Fault> {
        let lane = match record.lane {
            b'L' => Lane::Low,
            b'H' => Lane::High,
            _ => return Err(Fault::WrongLane),
        };
        self.send(record.wait)?;
        self.clear(lane)?;
        self.load(lane, record.packet)
    }

    // A call in each arm: the borrow checker covers no area that a `match` picks.
    fn load(&mut self, lane: Lane, packet: &[u8]) -> Result<(), Fault> {
        let loaded = match lane {
            Lane::Low => self.state.load(lane, packet, &mut self.low),
            Lane::High => self.state.load(lane, packet, &mut self.high),
        };
        loaded.map_err(|_| Fault::Refused)
    }

    // Up to so many octets; fewer if the sender gets idle. What is left goes down by what was sent, so no range fits.
    fn send(&mut self, most: usize) -> Result<(), Stopped> {
        let mut left = most;
        while 0 < left {
            let octets = self.go_on(left)?;
            if octets == 0 {
                break;
            }
            left -= octets;
        }
        Ok(())
    }

    // Octets while the lane holds a packet: it is free behind a flag. Counted, as the reads are.
    fn clear(&mut self, lane: Lane) -> Result<(), Stopped> {
        for _ in 0..u64::MAX {
            if !self.holds(lane) || self.go_on(usize::MAX)? == 0 {
                break;
            }
        }
        Ok(())
    }

    fn holds(&self, lane: Lane) -> bool {
        match lane {
            Lane::Low => 0 < self.state.low.length,
            Lane::High => 0 < self.state.high.length,
        }
    }

    // Up to so many octets, no further than to a flag or to the page's end; none if the sender is idle. A full page is written out.
    fn go_on(&mut self, most: usize) -> Result<usize, Stopped>
        ensures { IfOk result (λ octets. octets ≤ most) }
    {
        let end = self.filled + most.min(self.page.len() - self.filled);
        // lent ahead of the state, as the borrow checker asks
        let (low, high) = (&self.low, &self.high);
        let line = &mut self.page[self.filled..end];
        let octets = writer::write_on(&mut self.state, low, high, line);
        let filled = self.filled + octets;
        if filled < self.page.len() {
            self.filled = filled;
        } else {
            self.print(filled)?;
        }
        Ok(octets)
    }

    // So many octets of the page are written to standard output, or that is complained of; either way none is left to be written.
    fn print(&mut self, filled: usize) -> Result<(), Stopped>
        requires { filled ≤ 65536 }
        ensures { self.new.filled ≡ 0 }
    {
        self.filled = 0;
        let written = self.program.rt.write_all(&self.page[..filled]);
        written.or_else(|error| self.program.stop(error))
    }

    // ---- messages

    // The line ends at a fault, which is complained of.
    fn end(&mut self, name: &[u8], fault: Fault) -> Result<(), Stopped> {
        match fault {
            Fault::Stopped(stopped) => return Err(stopped),
            Fault::Unread(error) => {
                self.complain(name)?;
                self.program
                    .give_reason(b"the file cannot be read further", error);
            }
            Fault::CutShort => {
                self.complain(name)?;
                self.program
                    .say(b"it is cut short, the file ends within it\n");
            }
            Fault::WrongLane => {
                self.complain(name)?;
                self.program.say(b"its lane is neither L nor H\n");
            }
            Fault::Refused => {
                self.complain(name)?;
                self.program
                    .say(b"its packet has fewer than 2 or more than ");
                say_number(self.program, self.state.settings.limit as u64);
                self.program.say(b" octets\n");
            }
        }
        Err(Stopped::Cut)
    }

    // How a message about a record begins, behind what was sent before it. The first record is number 1, the first octet of the file is at place 0.
    fn complain(&mut self, name: &[u8]) -> Result<(), Stopped>
        ensures { self.new.filled ≡ 0 }
    {
        if let Err(Stopped::Deserted) = self.print(self.filled) {
            return Err(Stopped::Deserted);
        }
        self.program.complain(name);
        self.program.say(b"record ");
        say_number(self.program, self.records.wrapping_add(1));
        self.program.say(b", at octet ");
        say_number(self.program, self.place);
        self.program.say(b": ");
        Ok(())
    }
}

fn say_number<R: System>(program: &Program<R>, n: u64) {
    let _ = program.rt.errors().print(n);
}

// A file that cannot be read, or ends, before its records.
fn complain_of_head<R: System>(
    program: &Program<R>,
    name: &[u8],
    fault: HeadFault,
) -> Result<(), Stopped> {
    match fault {
        HeadFault::Unread(error) => program.fail(name, b"cannot be read", error),
        HeadFault::Missing(words) => {
            program.complain(name);
            program.say(words);
        }
    }
    Err(Stopped::Cut)
}

// Settings that no sender is opened with.
fn complain_of_settings<R: System>(
    program: &Program<R>,
    name: &[u8],
    settings: Settings,
    error: OpenError,
) -> Result<(), Stopped> {
    program.complain(name);
    match error {
        OpenError::Limit => {
            program.say(b"its limit is ");
            say_number(program, settings.limit as u64);
            program.say(b", not from 2 to 16384\n");
        }
        OpenError::Width => {
            program.say(b"its width is ");
            say_number(program, settings.width as u64);
            program.say(b", neither 16 nor 32\n");
        }
    }
    Err(Stopped::Cut)
}
