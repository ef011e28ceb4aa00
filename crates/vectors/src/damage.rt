// Copies of a plain sector with one byte changed, at the first and the last place of each of its parts, or with its EDC taken away.
use crate::kinds::Kind;
use crate::record::Record;
use crate::tally::Tally;

// The copy changed at `place` is judged so.
fn changed(record: &Record, place: usize, why: u16) -> bool {
    let mut damaged = *record;
    let Some(byte) = damaged.plain.get_mut(place) else {
        return false;
    };
    *byte ^= 0x10;
    damaged.is_judged(record.address, why)
}

// Each of the copies that are changed at one of these places is judged so.
fn each(record: &Record, places: &[usize], why: u16) -> bool {
    places.iter().all(|place| changed(record, *place, why))
}

// The four bytes of the EDC are zero: in form 2 there is none, and nothing fails; in any other kind it is wrong.
fn no_edc(record: &Record) -> bool {
    let code = record.kind.layout().code;
    let mut without = *record;
    without.plain[code..code + 4].fill(0);
    if record.kind == Kind::Form2 {
        return without.is_judged(record.address, 0) && changed(&without, 24, 0);
    }
    without.is_judged(record.address, 2)
}

// What stands behind the EDC is not judged: zeros and parity in mode 1, parity in form 1.
fn behind(record: &Record, t: &mut Tally) {
    if record.kind != Kind::Form2 {
        t.check(" parity", each(record, &[2076, 2351], 0));
    }
    if record.kind == Kind::Mode1 {
        t.check(" zeros", each(record, &[2068, 2075], 0));
    }
}

// The EDC (2) covers sync (8) and address (1) in mode 1 alone. With the mode byte changed (4) the rule is that of mode 1, whose EDC is wrong too; so it is
// where the copies of the subheader no longer are equal (4), and the EDC covers them.
pub(crate) fn checks(record: &Record, t: &mut Tally) {
    let layout = record.kind.layout();
    let user = [layout.user, layout.user + layout.size - 1];
    let code = [layout.code, layout.code + 3];
    t.check(" sync", each(record, &[0, 11], layout.sync));
    t.check(" address", each(record, &[12, 13, 14], layout.address));
    t.check(" mode", changed(record, 15, 4 + 2));
    if record.kind != Kind::Mode1 {
        t.check(" copies", each(record, &[16, 19, 20, 23], 4 + 2));
    }
    t.check(" user", each(record, &user, 2));
    t.check(" edc", each(record, &code, 2));
    t.check(" no edc", no_edc(record));
    behind(record, t);
}
