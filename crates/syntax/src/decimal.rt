// Text written into a lent buffer at a place.
ghost use Rattle.std.specs.Prelude.{◌≡◌, ◌+◌, ◌<◌, ◌≤◌, [], ◌∷◌, length};
ghost use Rattle.syntax.specs.Print.{Wrote, decimal, field};

// A buffer, and the place that the next byte goes to.
#[derive(Drop)]
pub(crate) struct Writer<'a> {
    pub out: &'a mut [u8],
    pub at: usize,
}

impl Writer<'_> {
    // Writes a byte.
    fn byte(&mut self, byte: u8)
        requires { self.old.at < length self.old.out.now }
        ensures { Wrote self.old (byte ∷ []) self.new }
    {
        self.out[self.at] = byte;
        self.at += 1;
    }

    // Writes bytes as they are, one by one: of a copy of a length that is not known the compiler would make a call of `memcpy`.
    pub(crate) fn text(&mut self, bytes: &[u8])
        requires { self.old.at + length bytes.now ≤ length self.old.out.now }
        ensures { Wrote self.old bytes.now self.new }
    {
        for byte in bytes {
            self.byte(*byte);
        }
    }

    // Writes a number in decimal.
    #[tactic(auto, using(crate::proofs::Digits::decimal_one, crate::proofs::Digits::length_more, crate::proofs::Written::same_length, crate::proofs::Written::one_digit))]
    fn decimal(&mut self, n: u64)
        requires { self.old.at + length (decimal n) ≤ length self.old.out.now }
        ensures { Wrote self.old (decimal n) self.new }
    {
        if n < 10 {
            self.byte(b'0' + n as u8);
        } else {
            self.decimal(n / 10);
            self.byte(b'0' + (n % 10) as u8);
        }
    }

    // Writes a key and its number.
    #[tactic(auto, using(crate::proofs::Written::same_length))]
    pub(crate) fn field(&mut self, key: &[u8], n: u64)
        requires { self.old.at + length key.now + length (decimal n) ≤ length self.old.out.now }
        ensures wrote { Wrote self.old (field key.now n) self.new }
        ensures len { length self.new.out.now ≡ length self.old.out.now }
    {
        self.text(key);
        self.decimal(n);
    }
}
