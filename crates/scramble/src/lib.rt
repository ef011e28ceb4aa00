// Scrambling of a sector (ECMA-130, Annex B; paper 01, "Sectors"): bytes 12 to 2,351 are xored with a fixed run of bytes, the
// sync bytes before them stay. Descrambling is the same.
#![tactic(auto)]

ghost use Rattle.std.specs.Prelude.{◌≡◌};
ghost use Rattle.scramble.specs.Scramble.{scrambled};

mod table;

// A sector scrambled, or descrambled, where it lies.
// Ruled out: one that scrambles the sync bytes, and one that xors with a table of one wrong entry.
pub fn scramble(sector: &mut [u8; 2352])
    ensures { sector.new ≡ scrambled sector.old }
{
    for (i, key) in table::table().iter().enumerate() {
        sector[12 + i] ^= *key;
    }
}

// The same of `src`, written to `dst`: `src` is only read.
// Ruled out: one that leaves the sync bytes of `dst` as they were, and one that stops before byte 2,351.
pub fn scramble_into(dst: &mut [u8; 2352], src: &[u8; 2352])
    ensures { dst.new ≡ scrambled src.now }
{
    dst[..12].copy_from_slice(&src[..12]);
    for (i, key) in table::table().iter().enumerate() {
        dst[12 + i] = src[12 + i] ^ *key;
    }
}
