// The plain sender, and the opening of a pair (document 02, slip 5).
ghost use Rattle.std.specs.Prelude.{◌≡◌};
ghost use Rattle.link.specs.PlainSender.{pair_error, pair_refusal, open_pair, no_room, send_refusal, send_with, plain_send};

use crate::receiver::Receiver;
use crate::{OpenError, Settings, receiver};
use fcs::Register;
use plain::NoRoom;

// The state: the width of the check (a number, as in Settings), the limit, and the sending map, 256 marks in 32 octets.
#[derive(Clone, Copy, Debug, PartialEq, Eq)]
pub struct PlainSender {
    pub width: u8,
    pub limit: u16,
    pub marks: [u8; 32],
}

// Why a pair's receiver is not opened: as any end, or the two maps do not fit. (The first two by themselves and no `Open(OpenError)`, since each has
// its number.)
#[derive(Clone, Copy, Debug, PartialEq, Eq)]
pub enum PairError {
    Limit,
    Width,
    Maps,
}

impl From<OpenError> for PairError {
    ghost from_gives = { λ e r. r ≡ pair_error e };

    fn from(e: OpenError) -> PairError {
        match e {
            OpenError::Limit => PairError::Limit,
            OpenError::Width => PairError::Width,
        }
    }
}

// The number of the refusal, 23, 3 or 19.
impl From<PairError> for u8 {
    ghost from_gives = { λ e n. n ≡ pair_refusal e };

    fn from(e: PairError) -> u8 {
        match e {
            PairError::Limit => 23,
            PairError::Width => 3,
            PairError::Maps => 19,
        }
    }
}

// Why a packet is not sent.
#[derive(Clone, Copy, Debug, PartialEq, Eq)]
pub enum SendError {
    PacketLength,
    NoRoom,
    OutOfBounds,
}

impl From<NoRoom> for SendError {
    ghost from_gives = { λ _ e. e ≡ no_room };

    fn from(_e: NoRoom) -> SendError {
        SendError::NoRoom
    }
}

// The number of the refusal, 1 to 3.
impl From<SendError> for u8 {
    ghost from_gives = { λ e n. n ≡ send_refusal e };

    fn from(e: SendError) -> u8 {
        match e {
            SendError::PacketLength => 1,
            SendError::NoRoom => 2,
            SendError::OutOfBounds => 3,
        }
    }
}

// The sender is to be used only where the receiver is opened.
#[derive(Clone, Copy, Debug, PartialEq, Eq)]
pub struct PairOpening {
    pub sender: PlainSender,
    pub receiver: Result<Receiver, PairError>,
}

// Refusals 23, 3 and 19, in this order.
fn open_receiver(settings: Settings, map: u32, marks: &[u8; 32]) -> Result<Receiver, PairError>
    ensures { result ≡ (open_pair settings map marks.now).receiver }
{
    let receiver = receiver::open(settings, Some(map))?;
    if plain::refused_pair(map, marks) {
        return Err(PairError::Maps);
    }
    Ok(receiver)
}

// A pair is opened with both maps: the sender's has 7D and 7E in any case.
pub fn open_pair(settings: Settings, map: u32, marks: [u8; 32]) -> PairOpening
    ensures { result ≡ open_pair settings map marks }
{
    PairOpening {
        sender: PlainSender {
            width: settings.width,
            limit: settings.limit,
            marks: plain::with_framing(marks),
        },
        receiver: open_receiver(settings, map, &marks),
    }
}

impl PlainSender {
    // A packet's line, written at the start of a lent area, and its length. Refusals, in this order: 3 (of the width or the limit), 2 (if and
    // only if the line is longer than the area), 3 (of the map) and 1. They write nothing.
    #[tactic(auto, unfolding(crate::specs::PlainSender::plain_send, crate::specs::Agreed::agreed))]
    pub fn send(self, packet: &[u8], area: &mut [u8]) -> Result<usize, SendError>
        ensures { record { answer = result; area = area.new } ≡ plain_send self packet.now area.old }
    {
        let settings = Settings {
            octet: 0,
            width: self.width,
            limit: self.limit,
        };
        if !settings.valid() {
            return Err(SendError::OutOfBounds);
        }
        // the width is known at run time alone
        if self.width == 32 {
            self.send_with::<u32>(packet, area)
        } else {
            self.send_with::<u16>(packet, area)
        }
    }

    // Past the first refusal, with the check of a width. A packet that is in order is measured once, where it is sent.
    #[tactic(auto, unfolding(crate::specs::PlainSender::send_with, plain::specs::Stuffing::send))]
    fn send_with<R: Register>(self, packet: &[u8], area: &mut [u8]) -> Result<usize, SendError>
        ensures { record { answer = result; area = area.new } ≡ send_with R.check self packet.now area.old }
    {
        let marks_ok = plain::marks_ok(&self.marks);
        let length_ok = crate::LEAST_PACKET <= packet.len() && packet.len() <= self.limit as usize;
        if marks_ok && length_ok {
            return Ok(plain::send::<R>(packet, &self.marks, area)?);
        }
        if plain::too_long::<R>(packet, &self.marks, area.len()) {
            return Err(SendError::NoRoom);
        }
        if !marks_ok {
            return Err(SendError::OutOfBounds);
        }
        Err(SendError::PacketLength)
    }
}
