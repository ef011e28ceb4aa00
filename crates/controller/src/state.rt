// All state of paper 01 that does not depend on the number of blocks, grouped by register.
ghost use Rattle.std.specs.Prelude.{◌≡◌};
ghost use Rattle.controller.specs.State.{initial};

use sector::{Address, Judgement};

// TCC (9Dh), BUFC (9Bh), TTC (9Fh). held: a bad sector was stored and DECEN has not been low since.
#[derive(Clone, Copy, Debug, PartialEq, Eq, Default)]
pub struct Counts {
    pub tcc: u16,
    pub bufc: u16,
    pub ttc: u16,
    pub held: bool,
}

// DECEN of CTRL0 (0Ah), BLIMEN and BLIMS of BICCTL (9Ah), BUFLIM (9Bh).
#[derive(Clone, Copy, Debug, PartialEq, Eq, Default)]
pub struct Buffering {
    pub decen: bool,
    pub blimen: bool,
    pub blims: bool,
    pub buflim: u16,
}

// ACCTL (9Ch).
#[derive(Clone, Copy, Debug, PartialEq, Eq, Default)]
pub struct Acctl {
    pub atten: bool,
    pub acmen: bool,
    pub tcincen: bool,
    pub atlim: u8,
}

// ASCTRL (18h).
#[derive(Clone, Copy, Debug, PartialEq, Eq, Default)]
pub struct Asctrl {
    pub apkten: bool,
    pub adcen: bool,
    pub ascen: bool,
    pub autoen: bool,
    pub stwcen: bool,
    pub a0ien: bool,
}

// ATSTA (written at 37h, read at 38h).
#[derive(Clone, Copy, Debug, PartialEq, Eq, Default)]
pub struct Atsta {
    pub bsy: bool,
    pub drdy: bool,
    pub dsc: bool,
    pub drq: bool,
    pub corr: bool,
    pub check: bool,
}

// ASCSTA (3Eh): what status completion puts into ATSTA.
#[derive(Clone, Copy, Debug, PartialEq, Eq, Default)]
pub struct Ascsta {
    pub drdy: bool,
    pub corr: bool,
    pub check: bool,
}

// ATERR (31h), ATINT (32h), ATBLO (34h), ATBHI (35h), ATCMD (read at 37h).
#[derive(Clone, Copy, Debug, PartialEq, Eq, Default)]
pub struct Task {
    pub aterr: u8,
    pub atint: u8,
    pub atblo: u8,
    pub atbhi: u8,
    pub atcmd: u8,
}

// The part of a block that is transferred; with 0 words none is set.
#[derive(Clone, Copy, Debug, PartialEq, Eq, Default)]
pub struct Window {
    pub offset: u16,
    pub words: u16,
}

// left: blocks of the transfer not yet read whole. position: words read of the present one.
#[derive(Clone, Copy, Debug, PartialEq, Eq, Default)]
pub struct Transfer {
    pub running: bool,
    pub left: u16,
    pub position: u16,
}

// APKT and FPKT of MISS2 (30h), the packet's bytes, and how many words of it have come.
#[derive(Clone, Copy, Debug, PartialEq, Eq, Default)]
pub struct Packet {
    pub apkt: bool,
    pub fpkt: bool,
    pub receiving: bool,
    pub received: u16,
    pub bytes: [u8; 12],
}

// adsc is bit 4 of APKSTA (3Dh); judgement is of the last stored sector, shown by TARSTA (80h); mbc is MBTC0 (12h).
#[derive(Clone, Copy, Debug, PartialEq, Eq, Default)]
pub struct Controller {
    pub counts: Counts,
    pub expected: Address,
    pub buffering: Buffering,
    pub acctl: Acctl,
    pub asctrl: Asctrl,
    pub atsta: Atsta,
    pub ascsta: Ascsta,
    pub adsc: bool,
    pub judgement: Judgement,
    pub task: Task,
    pub mbc: u8,
    pub window: Window,
    pub transfer: Transfer,
    pub packet: Packet,
    pub hirq: bool,
}

impl Controller {
    // As opened (paper 01, "The ring").
    pub fn initial() -> Controller
        ensures { result ≡ initial }
    {
        Controller {
            expected: Address {
                second: 2,
                ..Address::default()
            },
            task: Task {
                atblo: 0x14,
                atbhi: 0xEB,
                ..Task::default()
            },
            ..Controller::default()
        }
    }
}
