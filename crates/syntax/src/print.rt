// The line that the bench answers.
ghost use Rattle.std.specs.Prelude.{◌≡◌, ◌≤◌, length};
ghost use Rattle.syntax.specs.Print.{printed, longest, room, over};

use crate::decimal::Writer;

// The room that is lent for a line: `room` of the definitions.
pub const ROOM: usize = 160;

// What the line shows: how many lines were read, the reply's number and result, TCC, BUFC, what failed of the last stored sector, and the
// host interrupt.
#[derive(Clone, Copy, Debug, PartialEq, Eq)]
pub struct Shown {
    pub lines: u64,
    pub number: u8,
    pub out: u64,
    pub tcc: u16,
    pub bufc: u16,
    pub why: u16,
    pub irq: bool,
}

// Writes the line at the front of a buffer, which has room for it, and answers its length.
// Ruled out: one that shows BUFC for TCC, and one that puts a zero in front of a number.
#[tactic(auto, using(crate::proofs::Digits::digits_w8, crate::proofs::Digits::digits_w16, crate::proofs::Digits::digits_w64, crate::proofs::Digits::digits_bit))]
pub fn print(out: &mut [u8], s: Shown) -> usize
    requires { room ≤ length out.old }
    ensures value { result ≡ length (printed s) }
    ensures out_after { out.new ≡ over (printed s) out.old }
    ensures upper_bound { result ≤ longest }
{
    let mut line = Writer { out, at: 0 };
    line.field(b"n=", s.lines);
    line.field(b" answer=", s.number.into());
    line.field(b" out=", s.out);
    line.field(b" tcc=", s.tcc.into());
    line.field(b" bufc=", s.bufc.into());
    line.field(b" why=", s.why.into());
    line.field(b" irq=", s.irq.into());
    line.text(b"\n");
    line.at
}
