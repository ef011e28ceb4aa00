// The kinds of a sector, and where everything stands in each.
ghost use Rattle.std.specs.Prelude.{◌≡◌};
ghost use Rattle.sector.specs.Layout.{form, agrees, kind_read, kind_number, KindOf, layout_of, Fits};

use crate::{LENGTH, Subheader};
use reply::Refusal;

// The kinds 1, 2 and 3: mode 1, and the two forms of mode 2.
#[derive(Clone, Copy, Debug, PartialEq, Eq)]
pub(crate) enum Kind {
    Mode1,
    Form1,
    Form2,
}

// Where everything stands in a sector of one kind.
#[derive(Clone, Copy)]
pub(crate) struct Layout {
    // The mode byte.
    pub mode: u8,
    // Where the user bytes begin.
    pub user: usize,
    // From where on the code covers the bytes before it.
    pub covered: usize,
    // Where the code stands.
    pub code: usize,
    // How many zeros follow it.
    pub zeros: usize,
    // Whether a code of zero is none.
    pub optional: bool,
    // Whether parity follows.
    pub parity: bool,
    // Whether it takes the header as zero.
    pub masked: bool,
}

// Ruled out: one that takes 257 for kind 1, and one that refuses kind 3.
impl TryFrom<u16> for Kind {
    type Error = Refusal;

    ghost try_from_gives = { KindOf };

    fn try_from(number: u16) -> Result<Kind, Refusal> {
        match number {
            1 => Ok(Kind::Mode1),
            2 => Ok(Kind::Form1),
            3 => Ok(Kind::Form2),
            _ => Err(Refusal::OutOfRange),
        }
    }
}

impl Kind {
    // The form that bit 5 of a submode byte names.
    fn form(submode: u8) -> Kind
        ensures { kind_number result ≡ form submode }
    {
        if submode / 32 % 2 == 1 {
            Kind::Form2
        } else {
            Kind::Form1
        }
    }

    // The kind of an opened sector.
    // Ruled out: one that reads the form from the second copy, and one that reads it whatever the mode byte is.
    #[tactic(auto, unfolding(crate::specs::Layout::kind_read))]
    pub fn read(sector: &[u8; LENGTH]) -> Kind
        ensures { kind_number result ≡ kind_read sector.now }
    {
        if sector[15] == 2 {
            Kind::form(sector[18])
        } else {
            Kind::Mode1
        }
    }

    // Whether a sector of the kind may be sealed with the subheader.
    // Ruled out: one that looks at the form bit in mode 1, and one that takes every subheader in mode 2.
    pub fn agrees(self, subheader: Subheader) -> bool
        ensures { result ≡ agrees (kind_number self) subheader }
    {
        self == Kind::Mode1 || self == Kind::form(subheader.submode)
    }

    #[tactic(auto, unfolding(crate::specs::Layout::layout), using(crate::proofs::Layouts::fits))]
    pub fn layout(self) -> Layout
        ensures value { result ≡ layout_of self }
        ensures fits { Fits result }
    {
        match self {
            Kind::Mode1 => Layout {
                mode: 1,
                user: 16,
                covered: 0,
                code: 2064,
                zeros: 8,
                optional: false,
                parity: true,
                masked: false,
            },
            Kind::Form1 => Layout {
                mode: 2,
                user: 24,
                covered: 16,
                code: 2072,
                zeros: 0,
                optional: false, // form 2 alone may do without its code
                parity: true,
                masked: true,
            },
            Kind::Form2 => Layout {
                mode: 2,
                user: 24,
                covered: 16,
                code: 2348,
                zeros: 0,
                optional: true,
                parity: false,
                masked: false,
            },
        }
    }
}

// Whether a sector of the kind of this number may be sealed with the subheader; a number that is no kind may not.
// Ruled out: one that takes kind 257 for kind 1, and one that looks at the form bit in mode 1.
pub fn agrees(kind: u16, subheader: Subheader) -> bool
    ensures { result ≡ agrees kind subheader }
{
    Kind::try_from(kind).is_ok_and(|kind| kind.agrees(subheader))
}
