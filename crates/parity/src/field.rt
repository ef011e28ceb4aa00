// The field of 256 elements.
ghost use Rattle.std.specs.Prelude.{◌≡◌};
ghost use Rattle.parity.specs.Field.{times_x, product, power};

// An element times x.
// Ruled out: one that keeps bit 7 where it moved out, and one of another polynomial.
pub fn times_x(a: u8) -> u8
    ensures { result ≡ times_x a }
{
    (a % 128 * 2) ^ (a / 128 * 29)
}

// The product, bit by bit.
// Ruled out: one that leaves out the highest bit, and one that takes the lowest bit of the other factor.
pub fn product(a: u8, b: u8) -> u8
    ensures { result ≡ product a b }
{
    let mut x = a;
    let mut y = b;
    let mut sum = 0;
    for _ in 0..u8::BITS {
        sum ^= (y % 2) * x;
        x = times_x(x);
        y /= 2;
    }
    sum
}

// A power of the field's element: the previous power times the element. It goes as deep as the exponent, which is small where it is used.
// Ruled out: one that starts from the element itself, and one that gives 0 for power 0.
pub fn power(n: usize) -> u8
    ensures { result ≡ power n }
{
    if n == 0 {
        return 1;
    }
    times_x(power(n - 1))
}
