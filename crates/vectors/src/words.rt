// The parity words of a plain sector, with the header as it is or taken as zeros.
use crate::kinds::Kind;
use crate::record::{Record, parity_agrees};
use crate::tally::Tally;
use sector::LENGTH;

// Written over other bytes, the parity is the sector's own.
fn written(plain: &[u8; LENGTH], masked: bool) -> bool {
    let mut sector = *plain;
    sector[2076..].fill(0xa5);
    parity::write(&mut sector, masked);
    sector == *plain
}

// Each of the 276 parity bytes, one at a time: a word does not hold.
fn each_wrong_byte(plain: &[u8; LENGTH], masked: bool) -> bool {
    (2076..LENGTH).all(|place| {
        let mut sector = *plain;
        sector[place] ^= 0x10;
        !parity::check(&sector, masked)
    })
}

// Three symbols of the first Q word changed so that both its sums stay: every Q word holds then, and P words fail.
fn p_alone(plain: &[u8; LENGTH], masked: bool) -> bool {
    let mut sector = *plain;
    sector[1472] ^= 1;
    sector[2248] ^= 3;
    sector[2300] ^= 2;
    !parity::check(&sector, masked)
}

// With all its user bytes other ones, the check of a form 2 sector says yes.
fn any_bytes(plain: &[u8; LENGTH]) -> bool {
    let mut sector = *plain;
    sector[24..2348].fill(0xa5);
    parity_agrees(&sector)
}

// Form 2 has no parity, and the check says yes of any bytes.
pub(crate) fn checks(record: &Record, t: &mut Tally) {
    let plain = &record.plain;
    if record.kind == Kind::Form2 {
        t.check(" any bytes", any_bytes(plain));
        return;
    }
    let masked = record.kind == Kind::Form1;
    t.check(" words", parity::check(plain, masked));
    t.check(" written", written(plain, masked));
    t.check(" each parity byte", each_wrong_byte(plain, masked));
    t.check(" P alone", p_alone(plain, masked));
}
