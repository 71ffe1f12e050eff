// The two ends' vectors, run over the real calls: document 01's marked frames (a) to (h), and an example of each refusal.
// An answer is an octet or a few: D for Done, R and the number of a refusal; P, the area, the length and the octets of a packet; H, the
// count and whether it replaced; an octet sent is itself. Idle and Quiet give none.
ghost use Rattle.std.specs.Prelude.{◌≤◌};

use crate::answers::Answers;
use crate::rows;
use crate::rows::Row;
use link::Settings;
use link::receiver::{Receiver, Report};
use link::sender::{Lane, Sender};
use std::io::Print;

pub(crate) fn run<R: Print>(rt: &R) {
    // S: a packet in the low lane, H: in the high one, T: loaded twice. The marked frames (a) to (d), refusals 1 and 4.
    // R: octets received, where the one at a place comes so many times more. The marked captures (e) to (g), refusals 5, 7, 8 and 9,
    // 5 and 7 with something held (document 02, slip 4), 13 and 14; 6 and 11; the marked case (h), and refusals 10 and 12. A: the second area
    // is one octet too short, L: the state has 208 data octets left. Refusals 2 and 3.
    rows::compare_all(
        rt,
        16,
        2048,
        b"S\x03\x00\x00\x07\x02\x06sent of\x00\x00D\xe0\x03\x47\x0f\x7e\
        S\x03\x00\x00\x07\x02\x07sent of\x7e\x7eD\x05\x00\x00\x6a\xff\x7e\
        S\x03\x00\x00\x07\x09\x0esent of123456789D\x0c123456789\x6e\x90\x7e\
        S\x03\x00\x00\x07\x01\x02sent of1R\x01\
        H\x00\x00\x00\x1f\x02\x07settings 00, high lane, sent of\x00\x00D\x01\x01\x03\x47\x0f\x7e\
        T\x03\x00\x00\x15\x02\x08loaded twice, sent of\x00\x00DR\x04\xe0\x03\x47\x0f\x7e\
        R\x03\x00\x00\x0b\x1f\x1dreported of\x0c123\x7e\x0c123456789\x6e\x90\x7e\xd1\x09456789\x6e\x90\x7e\xd3\x7eH\x03\x00P\x01\x09123456789P\x00\x09123456789R\x0d\
        R\x03\x00\x00\x0b\x02\x00reported of\x7e\x7e\
        R\x03\x00\x00\x0b\x06\x06reported of\x051\x7e\x052\x7eH\x01\x00H\x01\x01\
        R\x03\x00\x00\x0b\x05\x02reported of\xff\x03\xc0\x21\x7eR\x05\
        R\x03\x00\x00\x0b\x02\x02reported of\xd2\x7eR\x07\
        R\x03\x00\x00\x0b\x03\x02reported of\xd1\x01\x7eR\x08\
        R\x03\x00\x00\x0b\x05\x05reported of\x051\x7e\xd1\x7eH\x01\x00R\x09\
        R\x03\x00\x00\x0b\x09\x07reported of\x051\x7e\xff\x03\x7e\xd1\x01\x7eH\x01\x00R\x05R\x08\
        R\x03\x00\x00\x0b\x08\x07reported of\x051\x7e\xd2\x7e\xd1\x01\x7eH\x01\x00R\x07R\x0d\
        R\x03\x00\x00\x0b\x02\x02reported of\xd3\x7eR\x0d\
        R\x03\x00\x00\x0b\x06\x02reported of\x051111\x7eR\x0e\
        R\x00\x00\x00\x18\x02\x02settings 00, reported of\xe0\x7eR\x06\
        R\x00\x00\x00\x18\x03\x02settings 00, reported of\x051\x7eR\x0b\
        R\x03\x00\x87\x19\x03\x02DF 136 times, reported of\xdf\xdb\x7eR\x0e\
        R\x03\x00\x87\x19\x03\x02DF 136 times, reported of\xdf\xdc\x7eR\x0a\
        R\x03\x00\x88\x19\x02\x02DF 137 times, reported of\xdf\x7eR\x0a\
        R\x03\x01\xce\x19\x03\x0231 207 times, reported of\xd01\x7eR\x0c\
        A\x03\x00\x00\x22\x01\x02second area one short, reported of\x7eR\x02\
        L\x03\x00\x00\x21\x01\x02208 data octets left, reported of\x7eR\x03",
    );
    // The same with 32 bits, and with 24, which no end is opened with: both by document 02, slip 1.
    rows::compare_all(
        rt,
        32,
        2048,
        b"S\x03\x00\x00\x10\x09\x1032 bits, sent of123456789D\x0e123456789&9\xf4\xcb\x7e\
        S\x03\x00\x00\x10\x02\x0832 bits, sent of\x00\x00D\xe0\x05\xff\x12\xd9A\x7e\
        H\x00\x00\x00\x28\x02\x0932 bits, settings 00, high lane, sent of\x00\x00D\x01\x01\x05\xff\x12\xd9A\x7e\
        S\x03\x00\x00\x10\x02\x0932 bits, sent of\x7e\x7eD\x07\x00\x00\xbc\x1a\xd8G\x7e\
        S\x03\x00\x00\x10\x01\x0232 bits, sent of1R\x01\
        R\x03\x00\x00\x14\x0f\x0c32 bits, reported of\x0e123456789&9\xf4\xcb\x7eP\x00\x09123456789\
        R\x03\x00\x00\x14\x0d\x0232 bits, reported of\x0c123456789n\x90\x7eR\x0e\
        R\x03\x00\x00\x14\x06\x0232 bits, reported of\x051111\x7eR\x0d\
        R\x03\x00\x00\x14\x07\x0232 bits, reported of\x0611111\x7eR\x0d\
        R\x03\x00\x00\x14\x08\x0232 bits, reported of\x07111111\x7eR\x0e\
        R\x03\x00\x87\x22\x03\x0232 bits, DF 136 times, reported of\xdf\xdd\x7eR\x0e\
        R\x03\x00\x87\x22\x03\x0232 bits, DF 136 times, reported of\xdf\xde\x7eR\x0a\
        A\x03\x00\x00\x2b\x01\x0232 bits, second area one short, reported of\x7eR\x02",
    );
    rows::compare_all(
        rt,
        24,
        2048,
        b"S\x03\x00\x00\x10\x01\x0224 bits, sent of1R\x03\
        R\x03\x00\x00\x14\x01\x0224 bits, reported of~R\x03",
    );
    // The least limit and the largest one, and some that no end is opened with, whatever the width: by slip 11.
    rows::compare_all(
        rt,
        16,
        2,
        b"S\x03\x00\x00\x10\x02\x07limit 2, sent ofABD\x05AB\xef1~\
        S\x03\x00\x00\x10\x03\x02limit 2, sent of123R\x01\
        S\x03\x00\x00\x10\x01\x02limit 2, sent of1R\x01\
        R\x03\x00\x00\x14\x06\x05limit 2, reported of\x05AB\xef1~P\x00\x02AB\
        R\x03\x00\x00\x14\x07\x02limit 2, reported of\x06123\xb4\x9c~R\x0a\
        R\x03\x00\x00\x14\x02\x02limit 2, reported of\xd5~R\x0e\
        R\x03\x00\x00\x14\x02\x02limit 2, reported of\xd6~R\x0a\
        A\x03\x00\x00\x2b\x01\x02limit 2, second area one short, reported of~R\x02",
    );
    rows::compare_all(
        rt,
        32,
        16384,
        b"S\x03\x00\x00\x1e\x09\x1032 bits, limit 16,384, sent of123456789D\x0e123456789&9\xf4\xcb~\
        R\x03\x00\x00\x22\x0f\x0c32 bits, limit 16,384, reported of\x0e123456789&9\xf4\xcb~P\x00\x09123456789\
        A\x03\x00\x00\x39\x01\x0232 bits, limit 16,384, second area one short, reported of~R\x02",
    );
    rows::compare_all(
        rt,
        24,
        1,
        b"S\x03\x00\x00\x19\x01\x0224 bits, limit 1, sent of1R\x17\
        R\x03\x00\x00\x1d\x01\x0224 bits, limit 1, reported of~R\x17",
    );
    rows::compare_all(
        rt,
        16,
        16385,
        b"S\x03\x00\x00\x15\x01\x02limit 16,385, sent of1R\x17\
        R\x03\x00\x00\x19\x01\x02limit 16,385, reported of~R\x17",
    );
}

impl Row<'_> {
    fn link_settings(&self) -> Settings {
        Settings {
            octet: self.settings,
            width: self.width,
            limit: self.limit,
        }
    }

    // A packet as long as the limit, and its FCS, an octet for each eight bits.
    fn longest_frame(&self) -> usize
        ensures { result ≤ 65566 }
    {
        self.limit as usize + (self.width / 8) as usize
    }
}

// Room for all that is decoded with 32 bits and the largest limit.
const ROOM: usize = 16389;

// The sender between calls, and what it has answered.
#[derive(Clone, Copy)]
struct Sending {
    state: Sender,
    answers: Answers,
}

impl Sending {
    fn load(&mut self, lane: Lane, packet: &[u8], area: &mut [u8]) {
        match self.state.load(lane, packet, area) {
            Ok(()) => self.answers.push(b'D'),
            Err(error) => self.answers.push_refusal(error.into()),
        }
    }

    // It is asked for 64 octets; where it is idle there is none.
    fn drain(&mut self, low: &[u8], high: &[u8]) {
        for _ in 0..64 {
            match self.state.next_octet(low, high) {
                Ok(Some(octet)) => self.answers.push(octet),
                Ok(None) => {}
                Err(error) => self.answers.push_refusal(error.into()),
            }
        }
    }
}

// A fresh sender is loaded, and drained.
pub(crate) fn sent(row: &Row) -> Answers {
    match link::sender::open(row.link_settings()) {
        Ok(state) => sent_by(state, row),
        Err(error) => Answers::refused(error.into()),
    }
}

// The areas are just as long as was agreed.
fn sent_by(state: Sender, row: &Row) -> Answers {
    let mut area = [0; ROOM];
    let empty = [0; ROOM];
    let n = row.longest_frame().min(ROOM);
    let mut sending = Sending {
        state,
        answers: Answers::none(),
    };
    let lane = if row.asked == b'H' {
        Lane::High
    } else {
        Lane::Low
    };
    sending.load(lane, row.given, &mut area[..n]);
    if row.asked == b'T' {
        sending.load(lane, row.given, &mut area[..n]);
    }
    match lane {
        Lane::Low => sending.drain(&area[..n], &empty[..n]),
        Lane::High => sending.drain(&empty[..n], &area[..n]),
    }
    sending.answers
}

// A fresh receiver takes the octets.
pub(crate) fn received(row: &Row) -> Answers {
    match link::receiver::open(row.link_settings(), None) {
        Ok(state) => received_by(state, row),
        Err(error) => Answers::refused(error.into()),
    }
}

// The second area is just as long as was agreed, or one octet shorter.
fn received_by(mut state: Receiver, row: &Row) -> Answers {
    let mut first = [0; ROOM];
    let mut second = [0; ROOM];
    let lent = if row.asked == b'A' {
        row.longest_frame()
    } else {
        row.longest_frame() + 1
    };
    if row.asked == b'L' {
        state.left = 208;
    }
    feed(state, row, &mut first, &mut second[..lent.min(ROOM)])
}

// The octet at the row's place comes so many times more.
fn feed(mut state: Receiver, row: &Row, first: &mut [u8], second: &mut [u8]) -> Answers {
    let mut answers = Answers::none();
    for (i, octet) in row.given.iter().enumerate() {
        let again = if i == row.at as usize { row.again } else { 0 };
        for _ in 0..=again {
            let received = state.receive(*octet, first, second);
            state = received.state;
            note(&mut answers, received.report, first, second);
        }
    }
    answers
}

fn note(answers: &mut Answers, report: Report, first: &[u8], second: &[u8]) {
    match report {
        Report::Quiet => {}
        Report::Packet {
            second: took,
            length,
        } => {
            answers.push_all(&[b'P', took as u8, (length % 256) as u8]);
            answers.push_all(tally::shown(took, length, first, second));
        }
        Report::Held { count, replaced } => {
            answers.push_all(&[b'H', (count % 256) as u8, replaced as u8]);
        }
        Report::Refused(n) => answers.push_refusal(n),
    }
}
