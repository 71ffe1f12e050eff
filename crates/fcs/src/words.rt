// Words, of eight octets, and short ones.
ghost use Rattle.std.specs.Prelude.{◌≡◌, ◌+◌, ◌*◌, ◌^◌, ◌≤◌, ◌<◌, length, take, drop};
ghost use Rattle.fcs.specs.CheckSequence.{low_first};

// The word at place i: eight octets as a number, the first lowest. The compiler makes one load of it.
pub(crate) fn word_at(octets: &[u8], i: usize) -> u64
    requires { i + 8 ≤ length octets.now }
    ensures { low_first 8 result ≡ take 8 (drop i octets.now) }
{
    u64::from_le_bytes([
        octets[i],
        octets[i + 1],
        octets[i + 2],
        octets[i + 3],
        octets[i + 4],
        octets[i + 5],
        octets[i + 6],
        octets[i + 7],
    ])
}

// A short word: fewer than eight octets as a number, the first lowest.
pub(crate) fn short_word(octets: &[u8]) -> u64
    requires { length octets.now < 8 }
    ensures { (result < 2 ^ (8 * length octets.now)) × (low_first (length octets.now) result ≡ octets.now) }
{
    octets
        .iter()
        .rev()
        .fold(0, |word, octet| (word << 8) | *octet as u64)
}
