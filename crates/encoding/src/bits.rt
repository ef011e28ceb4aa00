// Switches as the bits of a word.
ghost use Rattle.std.specs.Prelude.{◌≡◌, ◌≤◌};
ghost use Rattle.laws.specs.Numbers.{switches};

// The first switch is in bit 0.
pub(crate) fn switches<const N: usize>(on: [bool; N]) -> u16
    requires { N ≤ 16 }
    ensures { result ≡ switches on.entry }
{
    let mut word = 0;
    for (k, on) in on.iter().enumerate() {
        word += u16::from(*on) << k;
    }
    word
}
