// The line of input: which call it names, with its numbers. A line is read by its form, each run of decimal digits written as one `0`,
// and by the values of those runs; the table of forms below is the whole grammar.
ghost use Rattle.std.specs.Prelude.{◌≡◌};
ghost use Rattle.syntax.specs.Grammar.{named, parse};

use crate::form::{LONGEST, form};
use crate::values::{Numbers, values};
use calls::Call;
use sector::Address;

// The calls of the bench, by their names in docs/BENCH.md: `word` is `Take`, `sector` is `Disc`; `scratch`, `kind` and `subheader` are the disc's too;
// and the calls of the chip that are lent no memory are `Plain`: `block`, `window` and `address` set, `packet` is a packet byte and `send` a packet word.
#[derive(Clone, Copy)]
pub enum Line {
    Open(u16),
    Plain(Call),
    Look,
    Take,
    Disc(Address, u16),
    Scratch(u16, u16),
    SetKind(u16),
    SetSubheader(u16, u16, u16, u16),
}

// The call that a form names. The numbers of a form with one of them stand in `d`, of one with two in `c` and `d`, and so on. The forms with none come first: the
// compiler compares the first ones where they stand, and the lengths of the others by calls.
#[tactic(auto, using(laws::proofs::Same::not_same), unfolding(crate::specs::Grammar::named, crate::specs::Grammar::several, crate::specs::Grammar::disc, crate::specs::Grammar::bare))]
fn named(form: &str, n: Numbers) -> Option<Line>
    ensures { result ≡ named form.now n }
{
    let Numbers { a, b, c, d, .. } = n;
    let line = match form {
        "call=reset" => Line::Plain(Call::Reset),
        "call=look" => Line::Look,
        "call=word" => Line::Take,
        "call=status" => Line::Plain(Call::Status),
        "call=srst" => Line::Plain(Call::Srst),
        "call=open ring=0" => Line::Open(d),
        "call=read reg=0" => Line::Plain(Call::Read(d)),
        "call=block number=0" => Line::Plain(Call::SetBlock(d)),
        "call=packet index=0" => Line::Plain(Call::PacketByte(d)),
        "call=command code=0" => Line::Plain(Call::Command(d)),
        "call=send word=0" => Line::Plain(Call::PacketWord(d)),
        "call=write reg=0 value=0" => Line::Plain(Call::Write(c, d)),
        "call=window offset=0 words=0" => Line::Plain(Call::SetWindow(c, d)),
        "call=address min=0 sec=0 frame=0" => Line::Plain(Call::SetExpected(Address {
            minute: b,
            second: c,
            frame: d,
        })),
        "call=sector min=0 sec=0 frame=0 fill=0" => Line::Disc(
            Address {
                minute: a,
                second: b,
                frame: c,
            },
            d,
        ),
        "call=scratch from=0 count=0" => Line::Scratch(c, d),
        "call=kind number=0" => Line::SetKind(d),
        "call=subheader file=0 channel=0 submode=0 coding=0" => Line::SetSubheader(a, b, c, d),
        _ => return None,
    };
    Some(line)
}

// Reads a line, given without its end. One over 80 bytes, with a number above 65,535 or of none of the forms is malformed: none.
// Ruled out: one that takes a line of 81 bytes, and one that cuts a number above 65,535 to sixteen bits.
#[tactic(auto, using(crate::proofs::Reading::no_text), unfolding(crate::specs::Grammar::parse))]
pub fn parse(line: &[u8]) -> Option<Line>
    ensures { result ≡ parse line.now }
{
    if line.len() > LONGEST {
        return None;
    }
    let numbers = values(line)?;
    let mut space = [0u8; LONGEST];
    let form = str::from_utf8(form(line, &mut space)).ok()?;
    named(form, numbers)
}
