// A register of either width: what the check sequence asks of it. The steps below `feed`, by the table and by words, each width has in a file
// of its own (check16.rt, check32.rt), since over a trait they would ask it for laws of shift, xor and index, and the word steps and the folding
// are made for one polynomial.
ghost use Rattle.std.specs.Prelude.{◌≡◌, ℕ, eqb};
ghost use Rattle.fcs.specs.CheckSequence.{Check, ones, complement, feed, low_first};

use std::convert::AsSlice;

// u16 and u32 are registers, each of the check of its width.
pub trait Register: Copy + Eq {
    // The octets of the FCS.
    type Octets: AsSlice<u8> + Copy;

    // Its check, and its value as a number.
    ghost check: { Check };

    ghost value: { Self → ℕ };

    // Where it starts, and where a good frame leaves it.
    ghost START: { Self };

    ghost GOOD_END: { Self };

    const START: Self;

    const GOOD_END: Self;

    // Fed the octets of a slice.
    fn feed(self, octets: &[u8]) -> Self
        ensures { value result ≡ feed check (value self) octets.now };

    // The FCS that it comes to: the octets of its complement, low octet first.
    fn to_fcs(self) -> Self::Octets
        ensures { Self.Octets.items result ≡ low_first check.fcs_length (complement check (value self)) };

    ghost starts: { value START ≡ ones check };

    ghost ends: { value GOOD_END ≡ check.good_end };

    ghost same: { (a b : Self) → Self.PartialEq.eq a b ≡ eqb (value a) (value b) };
}
