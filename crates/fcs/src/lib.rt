// The check sequence, FCS (document 01, "Check sequence", and document 02, slip 1; RFC 1662, 3.1, C.2 and C.3), of 16 bits and of 32.
#![tactic(auto)]

ghost use Rattle.std.specs.Prelude.{◌≡◌};
ghost use Rattle.fcs.specs.CheckSequence.{Check, check16, check32, feed, register, fcs, good, OctetIsEightBits, Sound, FramesEndGood, MarkedFcs, BurstsChange, BurstsOneLonger};

pub use registers::Register;

mod check16;
mod check32;
mod registers;
mod tables;
mod words;

// The register over a slice, from its start.
pub fn register<R: Register>(octets: &[u8]) -> R
    ensures { R.value result ≡ register R.check octets.now }
{
    R::START.feed(octets)
}

// The FCS of a packet.
pub fn fcs<R: Register>(packet: &[u8]) -> R::Octets
    ensures { R.Octets.items result ≡ fcs R.check packet.now }
{
    register::<R>(packet).to_fcs()
}

// Whether a packet and its FCS end at the good register.
pub fn good<R: Register>(frame: &[u8]) -> bool
    ensures { result ≡ good R.check frame.now }
{
    register::<R>(frame) == R::GOOD_END
}

// ---- for C, under the names of RFC 1662's functions

// A register, at start, fed the octets of a slice, with 16 bits
#[unsafe(no_mangle)]
pub extern "C" fn pppfcs16(start: u16, octets: &[u8]) -> u16
    ensures { result ≡ feed check16 start octets.now }
{
    start.feed(octets)
}

// and with 32.
#[unsafe(no_mangle)]
pub extern "C" fn pppfcs32(start: u32, octets: &[u8]) -> u32
    ensures { result ≡ feed check32 start octets.now }
{
    start.feed(octets)
}

// What is claimed of this crate: each theorem that docs/DEMANDS.md names.
pub fn claims()
    ensures octet_is_eight_bits { OctetIsEightBits × ((k : Check) → Sound k → FramesEndGood k × BurstsChange k) }
    ensures sound { Sound check16 × Sound check32 × MarkedFcs × BurstsOneLonger }
{}
