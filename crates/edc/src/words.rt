// Runs of 256 bytes: the words of 64 bits of one, and one out of fewer bytes.
ghost use Rattle.std.specs.Prelude.{◌≡◌, ℕ, ◌+◌, ◌*◌, ◌<◌, ◌≤◌, length, drop, replicate};
ghost use Rattle.std.specs.Int.Bits.{bit_xor};
ghost use Rattle.edc.specs.Edc.{edc};
ghost use Rattle.edc.specs.Fold.{shifts};

// Word i of a run, as what its eight bytes do to a register: one load, once compiled.
// Ruled out: one that puts the first byte highest, and one that reads the bytes before them.
#[tactic(auto, using(crate::proofs::Octets::edc_word))]
pub fn word(run: &[u8; 256], i: usize) -> u64
    requires { i < 32 }
    ensures { (r : ℕ) → edc (shifts 64 (bit_xor r result)) (drop (8 * i + 8) run.now) ≡ edc r (drop (8 * i) run.now) }
{
    let (words, _) = run.as_chunks::<8>();
    u64::from_le_bytes(words[i])
}

// The bytes at the end of a run, which holds zeros.
// Ruled out: one that has the zeros after the bytes, and one that leaves out the last of them.
pub fn pad(run: &mut [u8; 256], bytes: &[u8])
    requires zeros { run.old ≡ replicate 256 0 }
    requires bound { length bytes.now ≤ 256 }
    ensures { edc 0 run.new ≡ edc 0 bytes.now }
{
    // Xored into the zeros, and not stored: the compiler makes one call of the C library's `memcpy` of a loop that only stores, and a library
    // that is linked into firmware is to need no more of it than `memset`.
    let start = 256 - bytes.len();
    for (i, byte) in bytes.iter().enumerate() {
        run[start + i] ^= *byte;
    }
}
