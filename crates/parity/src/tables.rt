// Division by 1 + x, by two tables that are made of powers.
ghost use Rattle.std.specs.Prelude.{◌≡◌};
ghost use Rattle.parity.specs.Field.{product, power};
ghost use Rattle.parity.specs.Rows.{multiples};

use crate::field::{power, product, times_x};

// 1 / (1 + x) = x^7 + x^6 + x^5 + x^4 + x^2, since 1 + x times that is x^8 + x^4 + x^3 + x^2, which is 1. It is power 230, and so made of
// the least powers.
// Ruled out: one that leaves out a power, and 1 + x itself.
fn inverse() -> u8
    ensures { result ≡ power 230 }
{
    power(7) ^ power(6) ^ power(5) ^ power(4) ^ power(2)
}

// c times 0 to 15: of each number x times what its half gives, and c where it is odd.
// Ruled out: one that leaves out the odd ones, and one whose entry 0 is c.
fn multiples(c: u8) -> [u8; 16]
    ensures { result ≡ multiples c }
{
    let mut t = [0; 16];
    for k in 1..16_u8 {
        t[usize::from(k)] = times_x(t[usize::from(k / 2)]) ^ (k % 2 * c);
    }
    t
}

// 1 / (1 + x) times the numbers 0 to 15, for the low four bits of what is divided, and that times x^4, for the high four.
#[derive(Drop)]
pub struct Division {
    low: [u8; 16],
    high: [u8; 16],
    ghost low_is: { low ≡ multiples (power 230) },
    ghost high_is: { high ≡ multiples (product (power 4) (power 230)) },
}

impl Division {
    // Ruled out: one whose two tables are the same, and one that takes power 4 alone for the high bits.
    pub fn new() -> Self {
        let c = inverse();
        Division {
            low: multiples(c),
            high: multiples(product(power(4), c)),
        }
    }

    // a / (1 + x).
    // Ruled out: one that leaves out the high bits, and one that swaps the two tables.
    pub fn quotient(&self, a: u8) -> u8
        ensures { result ≡ product (power 230) a }
    {
        self.low[usize::from(a % 16)] ^ self.high[usize::from(a / 16)]
    }
}
