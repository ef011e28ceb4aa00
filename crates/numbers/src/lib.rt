// Numbers that the code shares: what is not about CD-ROMs.
#![tactic(auto)]

ghost use Rattle.std.specs.Prelude.{◌≡◌, ◌≤◌};
ghost use Rattle.laws.specs.Numbers.{weight};

// A switch as the bit of weight w.
// Ruled out: one that gives w for a switch that is off, and one that gives 1 for every w.
pub fn weight(on: bool, w: u16) -> u16
    ensures { (result ≡ weight on w) × (result ≤ w) }
{
    if on { w } else { 0 }
}
