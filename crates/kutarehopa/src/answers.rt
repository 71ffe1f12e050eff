// The numbers of answers (specs/Numbers.antt): the kind in the high octet, then a mark, then the value in the low 16 bits.
// Plain functions and no From: neither link's types nor u32 are this crate's.
ghost use Rattle.std.specs.Prelude.{◌≡◌, ◌<◌};
ghost use Rattle.link.specs.Answers.{done, octet, idle, quiet, refused, next_answer, report_answer};
ghost use Rattle.kutarehopa.specs.Numbers.{kind_number, numbered, number, sent_value, sent_number};

use link::plain_sender::SendError;
use link::receiver::Report;
use link::sender::NextError;

// The kinds, numbered as the header numbers them.
#[derive(Clone, Copy)]
enum Kind {
    Quiet = 0,
    Packet = 1,
    Held = 2,
    Refused = 3,
    Done = 4,
    Octet = 5,
    Idle = 6,
    Written = 7,
}

fn numbered(kind: Kind, mark: bool, value: u16) -> u32
    ensures { result ≡ numbered (kind_number kind) mark value }
{
    0x100_0000 * (kind as u32) + 0x1_0000 * (mark as u32) + value as u32
}

pub(crate) fn quiet() -> u32
    ensures { result ≡ number quiet }
{
    numbered(Kind::Quiet, false, 0)
}

pub(crate) fn done() -> u32
    ensures { result ≡ number done }
{
    numbered(Kind::Done, false, 0)
}

pub(crate) fn octet(x: u8) -> u32
    ensures { result ≡ number (octet x) }
{
    numbered(Kind::Octet, false, x as u16)
}

pub(crate) fn idle() -> u32
    ensures { result ≡ number idle }
{
    numbered(Kind::Idle, false, 0)
}

pub(crate) fn refused(n: u8) -> u32
    ensures { result ≡ number (refused n) }
{
    numbered(Kind::Refused, false, n as u16)
}

pub(crate) fn of_next(answer: Result<Option<u8>, NextError>) -> u32
    ensures { result ≡ number (next_answer answer) }
{
    match answer {
        Ok(Some(x)) => octet(x),
        Ok(None) => idle(),
        Err(error) => refused(u8::from(error)),
    }
}

pub(crate) fn of_report(report: Report) -> u32
    ensures { result ≡ number (report_answer report) }
{
    match report {
        Report::Quiet => quiet(),
        Report::Packet { second, length } => numbered(Kind::Packet, second, length),
        Report::Held { count, replaced } => numbered(Kind::Held, replaced, count),
        Report::Refused(n) => refused(n),
    }
}

pub(crate) fn of_sent(answer: Result<usize, SendError>) -> u32
    requires { sent_value answer < 0x10000 }
    ensures { result ≡ sent_number answer }
{
    match answer {
        Ok(n) => numbered(Kind::Written, false, n as u16),
        Err(error) => refused(u8::from(error)),
    }
}
