// Code blocks (document 01, "Code blocks"; the COBS draft, 3 to 3.3).
#![tactic(auto)]

ghost use Rattle.std.specs.Prelude.{◌≡◌};
ghost use Rattle.cobs.specs.CodeBlocks.{with_phantom, meaning, to_line, from_line, leading_zeros, leading_nonzeros, choice};
ghost use Rattle.cobs.specs.Frames.{WholeFrames, OneReading, TheTable};
ghost use Rattle.cobs.specs.Shortest.{Shortest, CoversMost, OneListWithoutZxe, ZxeNeverLonger, WorkedLengths, AnotherWithZxe};

// The octet that closes a frame.
pub const FLAG: u8 = 0x7e;

// A row of the code table: so many data octets follow the code, and so many zeros stand after them.
#[derive(Clone, Copy, Debug, PartialEq, Eq)]
pub struct Row {
    pub nonzeros: u8,
    pub zeros: u8,
}

// Why a code is in no row.
#[derive(Clone, Copy, Debug, PartialEq, Eq)]
pub enum CodeError {
    // it needs ZXE, which is off
    NotAgreed,
    NoCode,
}

// The block that a sender chooses: its code, how many data octets follow it, and how many zeros stand after them.
#[derive(Clone, Copy, Debug, PartialEq, Eq)]
pub struct Choice {
    pub code: u8,
    pub nonzeros: u8,
    pub zeros: u8,
}

// An octet as it is sent within a frame.
#[tactic(auto, unfolding(crate::specs::CodeBlocks::to_line))]
pub fn to_line(octet: u8) -> u8
    ensures { result ≡ to_line octet }
{
    if octet == FLAG { 0 } else { octet }
}

// An octet from within a frame, turned back.
#[tactic(auto, unfolding(crate::specs::CodeBlocks::from_line))]
pub fn from_line(octet: u8) -> u8
    ensures { result ≡ from_line octet }
{
    if octet == 0 { FLAG } else { octet }
}

// The code table, read under the setting ZXE.
#[tactic(auto, unfolding(crate::specs::CodeBlocks::meaning, crate::specs::CodeBlocks::code_table, crate::specs::CodeBlocks::in_range))]
pub fn look_up(code: u8, zxe: bool) -> Result<Row, CodeError>
    ensures { result ≡ meaning zxe code }
{
    let (nonzeros, zeros) = match code {
        0x01..=0xcf => (code - 1, 1),
        0xd0 => (207, 0),
        0xd3..=0xfe if !zxe => return Err(CodeError::NotAgreed),
        0xd3..=0xdf => (0, code - 0xd0),
        0xe0..=0xfe => (code - 0xe0, 2),
        _ => return Err(CodeError::NoCode),
    };
    Ok(Row { nonzeros, zeros })
}

// In what follows, rest is what is left of a frame. The rest of D is that and the phantom, which is not stored: the slice's end is its place.

// How many octets that are not zero come first; the count breaks off at a zero or at 207.
#[tactic(auto, using(crate::proofs::Phantom::counting))]
fn count_nonzeros(rest: &[u8]) -> u8
    ensures { result ≡ leading_nonzeros 207 (with_phantom rest.now) }
{
    // A loop, which yields the count where it breaks off: the form that document 01 names.
    let mut k = 0;
    let count = loop {
        if k == 207 || k == rest.len() || rest[k] == 0 {
            break k;
        }
        k += 1;
    };
    count as u8
}

// How many zeros come first; the count breaks off at another octet, at the end of D or at most.
fn count_zeros(rest: &[u8], most: u8) -> u8
    ensures { result ≡ leading_zeros most (with_phantom rest.now) }
{
    // where there are only zeros, the phantom is one more
    let all = (rest.len() + 1).min(most as usize);
    rest.iter()
        .take(most as usize)
        .position(|&octet| octet != 0)
        .unwrap_or(all) as u8
}

// The block that a sender sends next.
#[tactic(auto, using(crate::proofs::Phantom::choosing), unfolding(crate::specs::CodeBlocks::choice))]
pub fn choose(rest: &[u8], zxe: bool) -> Choice
    ensures { result ≡ choice zxe (with_phantom rest.now) }
{
    let run = if zxe { count_zeros(rest, 15) } else { 0 };
    if 3 <= run {
        return Choice {
            code: 0xd0 + run,
            nonzeros: 0,
            zeros: run,
        };
    }
    let k = count_nonzeros(rest);
    if k == 207 {
        return Choice {
            code: 0xd0,
            nonzeros: 207,
            zeros: 0,
        };
    }
    if zxe && k <= 30 && count_zeros(&rest[k as usize..], 2) == 2 {
        return Choice {
            code: 0xe0 + k,
            nonzeros: k,
            zeros: 2,
        };
    }
    Choice {
        code: k + 1,
        nonzeros: k,
        zeros: 1,
    }
}

// What is claimed of this crate: each theorem that docs/DEMANDS.md names.
pub fn claims()
    ensures whole_frames { WholeFrames × OneReading × TheTable }
    ensures shortest { Shortest × CoversMost × OneListWithoutZxe × ZxeNeverLonger × WorkedLengths × AnotherWithZxe }
{}
