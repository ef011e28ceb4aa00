// The disc's side of the bench: what sector lines carry, and how the next one arrives.
ghost use Rattle.std.specs.Prelude.{◌≡◌};
ghost use Rattle.script.specs.Disc.{undamaged, inside, scratched, known, four_bytes, subheader_of, at_first, carried_by};

use sector::{LENGTH, Subheader};
use syntax::line::Line;

// So many bytes from a place on arrive inverted.
#[derive(Clone, Copy, Debug, PartialEq, Eq, Default)]
pub struct Damage {
    pub from: u16,
    pub count: u16,
}

// The kind and the subheader of sector lines, and how the next one arrives.
#[derive(Clone, Copy, Debug, PartialEq, Eq)]
pub struct Carried {
    pub kind: u16,
    pub subheader: Subheader,
    pub damage: Damage,
}

impl Damage {
    // Whether the bytes end inside a sector.
    pub(crate) fn inside(self) -> bool
        ensures { result ≡ inside self.from self.count }
    {
        usize::from(self.from) + usize::from(self.count) <= LENGTH
    }

    // The sector as it arrives.
    #[tactic(auto, unfolding(crate::specs::Disc::scratched), using(crate::proofs::Answering::turned))]
    pub(crate) fn scratch(self, sector: &mut [u8; LENGTH])
        ensures { sector.new ≡ scratched self sector.old }
    {
        if self.inside() {
            let from = usize::from(self.from);
            let end = from + usize::from(self.count);
            slices::invert(&mut sector[from..end]);
        }
    }
}

pub(crate) fn known(kind: u16) -> bool
    ensures { result ≡ known kind }
{
    matches!(kind, 1..=3)
}

pub(crate) fn four_bytes(file: u16, channel: u16, submode: u16, coding: u16) -> bool
    ensures { result ≡ four_bytes file channel submode coding }
{
    [file, channel, submode, coding].iter().all(|n| *n <= 255)
}

// The subheader of an accepted line, whose numbers are bytes.
fn subheader_of(file: u16, channel: u16, submode: u16, coding: u16) -> Subheader
    ensures { result ≡ subheader_of file channel submode coding }
{
    let byte = |n: u16| (n % 256) as u8;
    Subheader {
        file: byte(file),
        channel: byte(channel),
        submode: byte(submode),
        coding: byte(coding),
    }
}

impl Carried {
    pub(crate) fn at_first() -> Carried
        ensures { result ≡ at_first }
    {
        Carried {
            kind: 1,
            subheader: Subheader::default(),
            damage: Damage::default(),
        }
    }

    // What an accepted line makes of it.
    pub(crate) fn by_line(self, line: Line) -> Carried
        ensures { result ≡ carried_by self line }
    {
        match line {
            Line::Open(_) => Carried::at_first(),
            Line::Disc(_, _) => Carried {
                damage: Damage::default(),
                ..self
            },
            Line::Scratch(from, count) => Carried {
                damage: Damage { from, count },
                ..self
            },
            Line::SetKind(kind) => Carried { kind, ..self },
            Line::SetSubheader(file, channel, submode, coding) => Carried {
                subheader: subheader_of(file, channel, submode, coding),
                ..self
            },
            Line::Plain(_) | Line::Look | Line::Take => self,
        }
    }
}
