// Where everything stands in a sector of each kind, by ECMA-130 and CD-ROM XA; nothing of it is taken from the library.
ghost use Rattle.std.specs.Prelude.{◌+◌, ◌<◌, ◌≤◌};

use crate::file::Fault;

// Mode 1, and the two forms of mode 2, by their numbers.
#[derive(Clone, Copy, Debug, PartialEq, Eq)]
pub(crate) enum Kind {
    Mode1 = 1,
    Form1 = 2,
    Form2 = 3,
}

// Where its parts stand, and what is told of a damaged one.
#[derive(Clone, Copy)]
pub(crate) struct Layout {
    // The user bytes, and how many there are.
    pub user: usize,
    pub size: usize,
    // From where on the EDC covers the bytes before it, and its own four bytes.
    pub covered: usize,
    pub code: usize,
    // Why of a damaged sync byte, and of a damaged address: in mode 1 the EDC covers both.
    pub sync: u16,
    pub address: u16,
    ghost not_empty: { 0 < size },
    ghost most: { size ≤ 2324 },
    ghost user_fits: { user + size ≤ 2352 },
    ghost covers: { covered ≤ code },
    ghost code_fits: { code + 4 ≤ 2352 },
}

impl TryFrom<u8> for Kind {
    type Error = Fault;

    fn try_from(number: u8) -> Result<Kind, Fault> {
        match number {
            1 => Ok(Kind::Mode1),
            2 => Ok(Kind::Form1),
            3 => Ok(Kind::Form2),
            _ => Err(Fault::Kind),
        }
    }
}

impl Kind {
    pub(crate) fn layout(self) -> Layout {
        match self {
            Kind::Mode1 => Layout {
                user: 16,
                size: 2048,
                covered: 0,
                code: 2064,
                sync: 8 + 2,
                address: 1 + 2,
            },
            Kind::Form1 => Layout {
                user: 24,
                size: 2048,
                covered: 16,
                code: 2072,
                sync: 8,
                address: 1,
            },
            Kind::Form2 => Layout {
                user: 24,
                size: 2324,
                covered: 16,
                code: 2348,
                sync: 8,
                address: 1,
            },
        }
    }
}
