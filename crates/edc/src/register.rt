// The register out of the last words, by the scale 2 and by the quotient of one word.
ghost use Rattle.std.specs.Prelude.{◌≡◌, ◌%◌, ◌^◌, ◌<◌};
ghost use Rattle.std.specs.Int.Bits.{bit_xor};
ghost use Rattle.edc.specs.Fold.{shifts, halved, up, on};

// The low half of a word.
fn low(a: u64) -> u32
    ensures { result ≡ a % 2 ^ 32 }
{
    (a & 0xffff_ffff) as u32
}

// The high half of a word after its low half is folded into it by the scale 2.
fn halve(a: u64) -> u32
    ensures { result ≡ halved a }
{
    let low = low(a);
    (a >> 32) as u32 ^ low ^ (low << 24) ^ (low << 30)
}

// Two words folded to one by the scale 2, the low half of the first word first.
// Ruled out: one that takes the second word first, and one that drops the low half.
#[tactic(auto, using(crate::proofs::Halves::two_shifted))]
pub fn join_two(a: u64, b: u64) -> u64
    ensures { shifts 64 result ≡ shifts 64 (bit_xor (shifts 64 a) b) }
{
    let low = u64::from(low(a));
    let high = u64::from(halve(a));
    b ^ (low >> 8) ^ (low >> 2) ^ high ^ (high << 24) ^ (high << 30)
}

// A word k places up.
#[tactic(auto, unfolding(crate::specs::Fold::up))]
fn up(x: u64, k: usize) -> u64
    requires { k < 64 }
    ensures { result ≡ up k x }
{
    x << k
}

// A word xored with itself k places up: the word times 1 + x^k.
#[tactic(auto, unfolding(crate::specs::Fold::on))]
fn on(x: u64, k: usize) -> u64
    requires { k < 64 }
    ensures { result ≡ on k x }
{
    x ^ (x << k)
}

// The register q moved on by 32 bits with no data. Counted from the highest power, as the bits are, the generator is
// (1 + x) (1 + x^16 + x^28 + x^31), and its inverse up to x^31 is 1 + x + .. + x^15 + x^28 + x^29 + x^30. By this e is found, whose product
// with the generator begins with the 32 bits of q; the 32 bits after them are the register.
fn turn_out(q: u32) -> u32
    ensures { result ≡ shifts 32 q }
{
    let q = u64::from(q);
    let a = on(q, 1);
    let b = on(a, 2);
    let c = on(b, 4);
    let d = on(c, 8) ^ up(a, 28) ^ up(q, 30);
    let e = u64::from(low(d));
    let f = on(e, 16) ^ up(e, 28) ^ up(e, 31);
    (on(f, 1) >> 32) as u32
}

// The register that a word leaves.
// Ruled out: one that leaves the word as it is, and one that moves it on by 32 bits only.
#[tactic(auto, using(crate::proofs::Halves::half_left))]
pub fn register(x: u64) -> u32
    ensures { result ≡ shifts 64 x }
{
    let low = low(x);
    turn_out(halve(x)) ^ (low >> 8) ^ (low >> 2)
}
