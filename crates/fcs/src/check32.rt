// The check of 32 bits: its table, and words by its polynomial.
ghost use Rattle.std.specs.Prelude.{◌≡◌, refl, ◌≤◌, ◌<◌, length};
ghost use Rattle.fcs.specs.CheckSequence.{check32, ones, IsTable, bit_steps, octet_step, feed};

use crate::registers::Register;
use crate::tables::TABLE32;
use crate::words::{short_word, word_at};

impl Register for u32 {
    type Octets = [u8; 4];

    ghost check = { check32 };

    ghost value = { λ r. r };

    ghost START = { ones check32 };

    ghost GOOD_END = { check32.good_end };

    const START: u32 = 0xffff_ffff;

    const GOOD_END: u32 = 0xdebb_20e3;

    fn feed(self, octets: &[u8]) -> u32 {
        if octets.len() < 16 {
            return by_word(self, octets);
        }
        by_folding(self, octets)
    }

    fn to_fcs(self) -> [u8; 4] {
        (!self).to_le_bytes()
    }

    ghost starts = { refl };

    ghost ends = { refl };

    ghost same = { λ a b. refl };
}

// ---- an octet at a step

// The table, with its rule.
fn table32() -> [u32; 256]
    ensures { IsTable check32 result }
{
    TABLE32
}

// Document 01's step, by the table, which each call lays out anew.
fn octet_step(r: u32, octet: u8) -> u32
    ensures { result ≡ octet_step check32 r octet }
{
    let table = table32();
    (r >> 8) ^ table[((r ^ octet as u32) % 256) as usize]
}

// ---- a word, eight octets, at a step

// 64 steps, one a bit, at once, as for 16 bits: t divided by the polynomial with its top bit, 1DB710641. Its 16th power is 1 among the low
// 64 bits here too, and d is the quotient, whose 32 high bits give the remainder. Of the 15 bits ten are five pairs, 9 and 10, 20 and 21,
// 24 and 25, 27 and 28, 30 and 31: each pair is one shift, of u; so are the square's, of v, and the remainder's, of f.
fn word_step(t: u64) -> u32
    ensures { result ≡ bit_steps check32 64 t }
{
    let u = t ^ (t << 1);
    let a = t
        ^ (t << 6)
        ^ (t << 16)
        ^ (t << 22)
        ^ (t << 32)
        ^ (u << 9)
        ^ (u << 20)
        ^ (u << 24)
        ^ (u << 27)
        ^ (u << 30);
    let v = a ^ (a << 2);
    let b = a
        ^ (a << 12)
        ^ (a << 32)
        ^ (a << 44)
        ^ (v << 18)
        ^ (v << 40)
        ^ (v << 48)
        ^ (v << 54)
        ^ (v << 60);
    let c = b ^ (b << 24) ^ (b << 36) ^ (b << 40);
    let d = c ^ (c << 48);
    let e = d >> 32;
    let f = e ^ (e >> 1);
    let r = e
        ^ (e >> 10)
        ^ (e >> 16)
        ^ (e >> 26)
        ^ (f >> 1)
        ^ (f >> 4)
        ^ (f >> 7)
        ^ (f >> 11)
        ^ (f >> 22);
    r as u32
}

// A register, at start, fed what is left over behind the words. A short word is shifted into the high octets of a word; what of the
// register is shifted out there, where it has more bits, comes behind. A single octet goes by the table.
fn by_rest(start: u32, octets: &[u8]) -> u32
    requires { length octets.now < 8 }
    ensures { result ≡ feed check32 start octets.now }
{
    match octets {
        [] => start,
        [octet] => octet_step(start, *octet),
        _ => {
            let bits = 8 * octets.len();
            let t = start as u64 ^ short_word(octets);
            (word_step(t << (64 - bits)) as u64 ^ (t >> bits)) as u32
        }
    }
}

// The same of one word at most.
fn by_word(start: u32, octets: &[u8]) -> u32
    requires { length octets.now < 16 }
    ensures { result ≡ feed check32 start octets.now }
{
    if octets.len() < 8 {
        return by_rest(start, octets);
    }
    let r = word_step(start as u64 ^ word_at(octets, 0));
    by_rest(r, &octets[8..])
}

// The same of two words or more. A word step is dear, and steps wait for each other, so each word but the last two is folded into the next
// two instead: it counts as much as itself 64 bits later, 80, 87, 105, 111, 112, 119 and 120, together. By an index, as for 16 bits:
// `split_first_chunk` takes 178 instructions for 2 octets and not 176, `as_chunks` 233 for 16 and not 230 (but 8,329 for 1,402 and not 8,498).
fn by_folding(start: u32, octets: &[u8]) -> u32
    requires { 16 ≤ length octets.now }
    ensures { result ≡ feed check32 start octets.now }
{
    let mut a = start as u64 ^ word_at(octets, 0);
    let mut b = word_at(octets, 8);
    let mut i = 16;
    while 7 < octets.len() - i {
        let near = a
            ^ (a << 16)
            ^ (a << 23)
            ^ (a << 41)
            ^ (a << 47)
            ^ (a << 48)
            ^ (a << 55)
            ^ (a << 56);
        let far = (a >> 48) ^ (a >> 41) ^ (a >> 23) ^ (a >> 17) ^ (a >> 16) ^ (a >> 9) ^ (a >> 8);
        a = b ^ near;
        b = word_at(octets, i) ^ far;
        i += 8;
    }
    let r = word_step(word_step(a) as u64 ^ b);
    by_rest(r, &octets[i..])
}
