// Slices of bytes: what is not about CD-ROMs.
#![tactic(auto)]

ghost use Rattle.std.specs.Prelude.{◌≡◌, ◌+◌, ◌<◌, length};
ghost use Rattle.laws.specs.Bytes.{word_at, inverted};
ghost use Rattle.laws.specs.Same.{same};

// Whether two slices hold the same bytes.
// Ruled out: one that compares the lengths alone, and one that compares no further than the shorter slice.
pub fn equal(a: &[u8], b: &[u8]) -> bool
    ensures { result ≡ same a.now b.now }
{
    a == b
}

// Inverts every bit.
// Ruled out: one that leaves the last byte as it was, and one that inverts the lowest bit alone.
pub fn invert(bytes: &mut [u8])
    ensures { bytes.new ≡ inverted bytes.old }
{
    for byte in bytes.iter_mut() {
        *byte = !*byte;
    }
}

// Two bytes as a word, the first low.
// Ruled out: one that gives the first byte as the high one, and one that gives the same word at every place.
pub fn word_at(bytes: &[u8], at: usize) -> u16
    requires { at + 1 < length bytes.now }
    ensures { result ≡ word_at bytes.now at }
{
    u16::from_le_bytes([bytes[at], bytes[at + 1]])
}
