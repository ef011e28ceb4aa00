// One record. Its parts: the kind in byte 0, the absolute frame from byte 8, the subheader from 12, the EDC from 20, the user bytes from 24, the plain
// sector from 2,348, and the scrambled sector from 4,700 to its end, 7,052.
ghost use Rattle.std.specs.Prelude.{◌+◌, ◌≤◌, length};

use crate::file::Fault;
use crate::kinds::{Kind, Layout};
use crate::tally::Tally;
use crate::{damage, words};
use sector::{Address, Judgement, LENGTH, Subheader};

pub(crate) const SIZE: usize = 7052;

#[derive(Clone, Copy)]
pub(crate) struct Record {
    pub kind: Kind,
    pub address: Address,
    // The address that follows.
    next: Address,
    subheader: Subheader,
    code: u32,
    // The user bytes of its kind, and zeros up to the most that a kind has.
    user: [u8; 2324],
    pub plain: [u8; LENGTH],
    scrambled: [u8; LENGTH],
}

// A number in the file: four bytes, the lowest first.
pub(crate) fn word(bytes: &[u8], at: usize) -> u32
    requires { at + 4 ≤ length bytes.now }
{
    u32::from_le_bytes(*bytes[at..at + 4].as_array().unwrap())
}

// 75 frames are a second, and there are 450,000 addresses. The file gives the address in BCD too, which sealing has to find by itself.
fn address_of(frames: u32) -> Address {
    Address {
        minute: (frames / 4500 % 100) as u16,
        second: (frames / 75 % 60) as u16,
        frame: (frames % 75) as u16,
    }
}

impl TryFrom<&[u8; SIZE]> for Record {
    type Error = Fault;

    fn try_from(bytes: &[u8; SIZE]) -> Result<Self, Fault> {
        let frames = word(bytes, 8);
        Ok(Record {
            kind: bytes[0].try_into()?,
            address: address_of(frames),
            // 99:59:74 is the last address, and the first follows it.
            next: address_of(frames % 450000 + 1),
            subheader: Subheader::from(*bytes[12..16].as_array().unwrap()),
            code: word(bytes, 20),
            user: *bytes[24..2348].as_array().unwrap(),
            plain: *bytes[2348..4700].as_array().unwrap(),
            scrambled: *bytes[4700..].as_array().unwrap(),
        })
    }
}

// The parity check says yes.
pub(crate) fn parity_agrees(plain: &[u8; LENGTH]) -> bool {
    sector::check_parity(plain) == Ok(true)
}

impl Record {
    // The EDC of the bytes that it covers is the file's.
    fn has_code(&self) -> bool {
        let layout = self.kind.layout();
        edc::edc(&self.plain[layout.covered..layout.code]) == self.code
    }

    // Sealing gives the scrambled sector, from a buffer that holds its user bytes and nothing else of it.
    fn is_sealed(&self) -> bool {
        let Layout { user, size, .. } = self.kind.layout();
        let mut sector = [0xa5; LENGTH];
        sector[user..user + size].copy_from_slice(&self.user[..size]);
        let sealed = sector::seal(&mut sector, self.address, self.kind as u16, self.subheader);
        sealed == Ok(()) && sector == self.scrambled
    }

    // Opening the scrambled sector gives the plain one.
    fn is_opened(&self) -> bool {
        let mut sector = self.scrambled;
        sector::open(&mut sector) == Ok(()) && sector == self.plain
    }

    // Judging the plain sector gives these facts, as the number why.
    pub(crate) fn is_judged(&self, address: Address, why: u16) -> bool {
        sector::judge(&self.plain, address).map(Judgement::why) == Ok(why)
    }

    // The beginning of a line.
    fn heading(&self, number: u32, t: &Tally) {
        let kind = self.kind as u16;
        let Address {
            minute,
            second,
            frame,
        } = self.address;
        t.text(format_args!("record {number} kind {kind} {minute:02}:{second:02}:{frame:02}"));
    }

    // What the record holds, against the calls.
    fn compare(&self, t: &mut Tally) {
        t.check(" edc", self.has_code());
        t.check(" sealed", self.is_sealed());
        t.check(" opened", self.is_opened());
        t.check(" judged", self.is_judged(self.address, 0));
        t.check(" next", self.is_judged(self.next, 1));
        t.check(" parity", parity_agrees(&self.plain));
    }

    // The two lines of the record `number` of the file.
    pub(crate) fn checks(&self, number: u32, t: &mut Tally) {
        self.heading(number, t);
        self.compare(t);
        t.text("\n");
        self.heading(number, t);
        t.text(" damaged");
        damage::checks(self, t);
        words::checks(self, t);
        t.text("\n");
    }
}
