// What the calls refuse: a length other than 2,352 by reply 1; an address out of range, an unknown kind or a form bit that is not the kind's by reply 3;
// and no byte changed.
ghost use Rattle.std.specs.Prelude.{◌≤◌};

use crate::tally::Tally;
use reply::Refusal;
use sector::{Address, LENGTH, Subheader};

// What a buffer holds before the call.
const BYTE: u8 = 0x5a;

const START: Address = Address {
    minute: 0,
    second: 2,
    frame: 0,
};

fn with_submode(submode: u8) -> Subheader {
    Subheader {
        file: 1,
        channel: 2,
        submode,
        coding: 4,
    }
}

// Whether a buffer is as before.
fn stays(sector: &[u8]) -> bool {
    sector.iter().all(|byte| *byte == BYTE)
}

// Whether a call answers this number. The numbers are paper 01's, and nothing of them is to be taken from the library.
fn is_refused<T: Copy>(answer: Result<T, Refusal>, number: u8) -> bool {
    answer.is_err_and(|refusal| refusal.number() == number)
}

// Sealing and judging at `address` answer `number`, and the buffer stays.
fn refused_by(sector: &mut [u8], address: Address, number: u8) -> bool {
    let sealed = sector::seal(sector, address, 1, with_submode(0));
    let judged = sector::judge(sector, address);
    is_refused(sealed, number) && is_refused(judged, number) && stays(sector)
}

// Every call refuses this length, and before the address.
fn wrong_length(length: usize) -> bool
    requires { length ≤ 2353 }
{
    let mut space = [BYTE; 2353];
    let sector = &mut space[..length];
    let bad = Address {
        minute: 100,
        second: 0,
        frame: 0,
    };
    is_refused(sector::open(sector), 1)
        && is_refused(sector::check_parity(sector), 1)
        && refused_by(sector, START, 1)
        && refused_by(sector, bad, 1)
}

fn lengths(t: &mut Tally) {
    t.check(" length 0", wrong_length(0));
    t.check(" length 2351", wrong_length(2351));
    t.check(" length 2353", wrong_length(2353));
}

fn bad_address(minute: u16, second: u16, frame: u16) -> bool {
    let address = Address {
        minute,
        second,
        frame,
    };
    refused_by(&mut [BYTE; LENGTH], address, 3)
}

fn addresses(t: &mut Tally) {
    t.check(" minute 100", bad_address(100, 0, 0));
    t.check(" second 60", bad_address(0, 60, 0));
    t.check(" frame 75", bad_address(0, 0, 75));
}

// Sealing refuses the kind with this submode, and changes no byte; a wrong length is refused before it.
fn bad_kind(kind: u16, submode: u8) -> bool {
    let header = with_submode(submode);
    let mut sector = [BYTE; LENGTH];
    let sealed = sector::seal(&mut sector, START, kind, header);
    let short = sector::seal(&mut [0; LENGTH - 1], START, kind, header);
    is_refused(sealed, 3) && is_refused(short, 1) && stays(&sector)
}

fn kinds(t: &mut Tally) {
    t.check(" kind 0", bad_kind(0, 0x00));
    t.check(" kind 4", bad_kind(4, 0x20));
    t.check(" kind 257", bad_kind(257, 0x00));
    t.check(" form 1 with bit 5", bad_kind(2, 0x28));
    t.check(" form 2 without", bad_kind(3, 0xdf));
}

pub(crate) fn checks(t: &mut Tally) {
    t.text("refused");
    lengths(t);
    addresses(t);
    kinds(t);
    t.text("\n");
}
