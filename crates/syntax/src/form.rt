// The form of a line: its bytes, each run of decimal digits written as one `0`.
ghost use Rattle.std.specs.Prelude.{◌≡◌, false, ◌≤◌, length};
ghost use Rattle.syntax.specs.Grammar.{form, mark};

// The bytes of the longest line.
pub(crate) const LONGEST: usize = 80;

// What a byte is written as.
#[tactic(auto, unfolding(crate::specs::Grammar::mark))]
fn mark(byte: u8) -> u8
    ensures { result ≡ mark byte }
{
    if byte.is_ascii_digit() { b'0' } else { byte }
}

// The form, written at the start of `space`. A digit that follows a digit is stored too, and the next byte takes its place.
pub(crate) fn form<'a>(line: &[u8], space: &'a mut [u8; LONGEST]) -> &'a [u8]
    requires { length line.now ≤ 80 }
    ensures { result.now ≡ form false line.now }
{
    let mut inside = false;
    let mut at = 0;
    for byte in line {
        space[at] = mark(*byte);
        let digit = byte.is_ascii_digit();
        if !(inside & digit) {
            at += 1;
        }
        inside = digit;
    }
    &space[..at]
}
