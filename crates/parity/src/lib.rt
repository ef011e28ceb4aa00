// The P and Q parity of a sector (ECMA-130, Annex A; paper 02, ask 2): written behind its data, and checked. docs/PARITY.md tells the method.
#![tactic(auto)]

mod field;
mod rows;
mod sums;
mod tables;

ghost use Rattle.std.specs.Prelude.{◌≡◌, take};
ghost use Rattle.parity.specs.Parity.{with_parity, parity_holds};

use rows::Rows;
use tables::Division;

// Writes the parity of a sector behind its data, bytes 0 to 2,075, whatever lay there; the header counts as zeros where that is asked for.
// Ruled out: one that takes Q before P is written, and one that swaps the two symbols of a word.
pub fn write(sector: &mut [u8; 2352], masked: bool)
    ensures { sector.new ≡ with_parity masked (take 2076 sector.old) }
{
    let division = Division::new();
    Rows::new(sector, masked)
        .p_sums()
        .solve(&division, &mut sector[2076..2248]);
    Rows::new(sector, masked)
        .q_sums()
        .solve(&division, &mut sector[2248..]);
}

// Whether every word of a descrambled sector holds.
// Ruled out: one that leaves out the Q words, and one that takes a word whose sums are equal and not 0.
pub fn check(sector: &[u8; 2352], masked: bool) -> bool
    ensures { result ≡ parity_holds masked sector.now }
{
    let rows = Rows::new(sector, masked);
    let p = rows.p_sums().fit(&sector[2076..2248]);
    let q = rows.q_sums().fit(&sector[2248..]);
    p & q
}
