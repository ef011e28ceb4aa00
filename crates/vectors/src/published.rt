// The published values: the check value of the EDC, and the beginning of the sequence that a sector is scrambled with.
use crate::tally::Tally;
use sector::LENGTH;

// The sequence's first 16 bytes.
const FIRST: [u8; 16] = *b"\x01\x80\x00\x60\x00\x28\x00\x1e\x80\x08\x60\x06\xa8\x02\xfe\x81";

// CRC-32/CD-ROM-EDC of the nine bytes that check values are given for.
fn edc_value(t: &mut Tally) {
    let code = edc::edc(b"123456789");
    t.text(format_args!("edc 123456789 {code:08x}"));
    t.check("", code == 0x6ec2edc4);
    t.text("\n");
}

// Of a scrambled sector of zeros, bytes 12 to 27 are the sequence's first; the sync bytes before them stay.
fn sequence(t: &mut Tally) {
    let mut sector = [0; LENGTH];
    scramble::scramble(&mut sector);
    t.text("scramble");
    for byte in &sector[12..28] {
        t.text(format_args!(" {byte:02x}"));
    }
    t.check("", sector[12..].starts_with(&FIRST));
    t.check(" sync", sector.starts_with(&[0; 12]));
    t.text("\n");
}

pub(crate) fn checks(t: &mut Tally) {
    edc_value(t);
    sequence(t);
}
