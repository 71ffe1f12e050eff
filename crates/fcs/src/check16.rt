// The check of 16 bits: its table, and words by its polynomial.
ghost use Rattle.std.specs.Prelude.{◌≡◌, refl, ◌≤◌, ◌<◌, length};
ghost use Rattle.fcs.specs.CheckSequence.{check16, ones, IsTable, bit_steps, octet_step, feed};

use crate::registers::Register;
use crate::tables::TABLE16;
use crate::words::{short_word, word_at};

impl Register for u16 {
    type Octets = [u8; 2];

    ghost check = { check16 };

    ghost value = { λ r. r };

    ghost START = { ones check16 };

    ghost GOOD_END = { check16.good_end };

    const START: u16 = 0xffff;

    const GOOD_END: u16 = 0xf0b8;

    fn feed(self, octets: &[u8]) -> u16 {
        if octets.len() < 32 {
            return by_words(self, octets);
        }
        by_folding(self, octets)
    }

    fn to_fcs(self) -> [u8; 2] {
        (!self).to_le_bytes()
    }

    ghost starts = { refl };

    ghost ends = { refl };

    ghost same = { λ a b. refl };
}

// ---- an octet at a step

// The table, with its rule.
fn table16() -> [u16; 256]
    ensures { IsTable check16 result }
{
    TABLE16
}

// Document 01's step, by the table, which each call lays out anew, in 64 instructions.
fn octet_step(r: u16, octet: u8) -> u16
    ensures { result ≡ octet_step check16 r octet }
{
    let table = table16();
    (r >> 8) ^ table[((r ^ octet as u16) % 256) as usize]
}

// ---- a word, eight octets, at a step

// 64 steps, one a bit, at once: t divided by the polynomial with its top bit, 10811, of bits 0, 4, 11 and 16. Its 16th power is 1 among the
// low 64 bits, so the 1st, 2nd, 4th and 8th, multiplied, are its inverse: d is the quotient, whose 16 high bits give the remainder.
fn word_step(t: u64) -> u64
    ensures { result ≡ bit_steps check16 64 t }
{
    let a = t ^ (t << 4) ^ (t << 11) ^ (t << 16);
    let b = a ^ (a << 8) ^ (a << 22) ^ (a << 32);
    let c = b ^ (b << 16) ^ (b << 44);
    let d = c ^ (c << 32);
    let e = d >> 48;
    e ^ (e >> 5) ^ (e >> 12)
}

// A register, at start, fed what is left over behind the words. A short word is shifted into the high octets of a word; a single octet,
// which has fewer bits than the register, goes by the table.
fn by_rest(start: u16, octets: &[u8]) -> u16
    requires { length octets.now < 8 }
    ensures { result ≡ feed check16 start octets.now }
{
    match octets {
        [] => start,
        [octet] => octet_step(start, *octet),
        _ => word_step((start as u64 ^ short_word(octets)) << (64 - 8 * octets.len())) as u16,
    }
}

// The same of any octets, a word at a step. `word_at` reads it, since its clause is one on the octets; the compiler makes one load of it.
fn by_words(start: u16, octets: &[u8]) -> u16
    ensures { result ≡ feed check16 start octets.now }
{
    let mut r = start as u64;
    let mut rest = octets;
    while let Some((word, behind)) = rest.split_first_chunk::<8>() {
        r = word_step(r ^ word_at(word, 0));
        rest = behind;
    }
    by_rest(r as u16, rest)
}

// The same of four words or more. Word steps wait for each other, so each word but the last four is folded into the next four instead: it
// counts as much as itself 64 bits later, 176 (48 bits into a word, so in two words) and 256, together. By an index, since parting the words takes
// more instructions: `split_first_chunk` 1,967 for 1,402 octets and not 1,800, `as_chunks` 187 for 32 and not 179.
fn by_folding(start: u16, octets: &[u8]) -> u16
    requires { 32 ≤ length octets.now }
    ensures { result ≡ feed check16 start octets.now }
{
    let mut a = start as u64 ^ word_at(octets, 0);
    let mut b = word_at(octets, 8);
    let mut c = word_at(octets, 16);
    let mut d = word_at(octets, 24);
    let mut i = 32;
    while 7 < octets.len() - i {
        let folded = a;
        a = b ^ folded;
        b = c ^ (folded << 48);
        c = d ^ (folded >> 16);
        d = word_at(octets, i) ^ folded;
        i += 8;
    }
    let r = word_step(word_step(word_step(word_step(a) ^ b) ^ c) ^ d);
    by_rest(r as u16, &octets[i..])
}
