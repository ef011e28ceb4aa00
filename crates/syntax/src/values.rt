// The values of a line's runs of decimal digits.
ghost use Rattle.std.specs.Prelude.{◌≡◌};
ghost use Rattle.syntax.specs.Grammar.{next, numbers};

// The last four runs, `d` the latest, and whether the byte before was a digit.
#[derive(Clone, Copy, Debug, PartialEq, Eq, Default)]
pub(crate) struct Numbers {
    pub a: u16,
    pub b: u16,
    pub c: u16,
    pub d: u16,
    pub inside: bool,
}

impl Numbers {
    // One byte more: a digit begins a run or makes one longer, any other byte ends it. None where the run's value is above 65,535.
    #[tactic(auto, unfolding(crate::specs::Grammar::next))]
    fn extended(self, byte: u8) -> Option<Numbers>
        ensures { result ≡ next self byte }
    {
        if !byte.is_ascii_digit() {
            return Some(Numbers {
                inside: false,
                ..self
            });
        }
        let digit = u16::from(byte - b'0');
        if self.inside {
            let d = self.d.checked_mul(10)?.checked_add(digit)?;
            return Some(Numbers { d, ..self });
        }
        Some(Numbers {
            a: self.b,
            b: self.c,
            c: self.d,
            d: digit,
            inside: true,
        })
    }
}

// The numbers after all bytes of a line. None where one is above 65,535.
pub(crate) fn values(line: &[u8]) -> Option<Numbers>
    ensures { result ≡ numbers line.now }
{
    let mut numbers = Numbers::default();
    for byte in line {
        numbers = numbers.extended(*byte)?;
    }
    Some(numbers)
}
