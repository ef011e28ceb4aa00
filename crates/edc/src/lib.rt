// The error detection code of a sector (ECMA-130, 14.3), without tables.
//
// x^(31s) + x^(15s) + x^(3s) + 1 is a multiple of the generator for s = 2, 4, .., 64, so that a unit of s bits may be moved on by
// 16, 28 and 31 units. Words of 64 bits are divided by the multiple of s = 64, in a ring of the last 32 words of the quotient. What the
// ring stands for is folded by the lesser scales to one word, and the register comes out of that. docs/EDC.md tells the method.
#![tactic(auto)]

mod division;
mod folding;
mod register;
mod words;

ghost use Rattle.std.specs.Prelude.{◌≡◌};
ghost use Rattle.edc.specs.Edc.{edc};

use division::Ring;

// The error detection code of the bytes, whatever their number. Zeros before them change nothing, so that the first run may be filled up.
// Ruled out: one that feeds the highest bit of a byte first, and one that leaves out what is over after whole runs of 256 bytes.
#[tactic(auto, using(crate::proofs::Octets::edc_parts, crate::proofs::Octets::edc_run, crate::proofs::Laws::edc_end, crate::proofs::Ring::held_empty))]
pub fn edc(bytes: &[u8]) -> u32
    ensures { result ≡ edc 0 bytes.now }
{
    let (over, runs) = bytes.as_rchunks::<256>();
    let mut first = [0; 256];
    words::pad(&mut first, over);
    let mut ring = Ring::default();
    ring.turn(&first);
    for run in runs {
        ring.turn(run);
    }
    register::register(ring.one_word())
}
