// What is made of the four facts of a judgement.
ghost use Rattle.std.specs.Prelude.{◌≡◌};
ghost use Rattle.sector.specs.Judge.{staerr, good, tarsta_byte, why};

use crate::Judgement;
use numbers::weight;

impl Judgement {
    fn staerr(self) -> bool
        ensures { result ≡ staerr self }
    {
        self.sync || self.mode || self.edc
    }

    // Whether nothing failed.
    // Ruled out: one that takes a sector with a wrong header, and one that takes none.
    pub fn good(self) -> bool
        ensures { result ≡ good self }
    {
        !self.staerr() && !self.address
    }

    // The byte of TARSTA (80h).
    // Ruled out: one that shows HCEI in bit 6, and one that shows 0 for every sector.
    pub fn tarsta(self) -> u16
        ensures { result ≡ tarsta_byte self }
    {
        weight(self.staerr(), 0x40) + weight(self.address, 0x01)
    }

    // The four as one number.
    // Ruled out: one that swaps mode and EDC, and one that leaves out a fact behind another.
    pub fn why(self) -> u16
        ensures { result ≡ why self }
    {
        weight(self.sync, 8) + weight(self.mode, 4) + weight(self.edc, 2) + weight(self.address, 1)
    }
}
