// The file of vectors: a header of 32 bytes, then records of 7,052 bytes, read one at a time. Whatever is wrong with it is a check
// that failed, and ends the reading.
use crate::kinds::Kind;
use crate::record::{Record, SIZE, word};
use crate::tally::Tally;
use std::io::Read;
use std::rt::Files;
use std::{fmt, fs};

// What is wrong with the file.
#[derive(Clone, Copy, Debug, PartialEq, Eq)]
pub(crate) enum Fault {
    Unopened,
    Short,
    Magic,
    Version,
    RecordSize,
    FirstRecord,
    Part,
    Kind,
}

// What the check was that failed.
impl fmt::Display for Fault {
    fn fmt<W: fmt::Write>(&self, f: &mut fmt::Formatter<W>) -> fmt::Result {
        f.write_str(match self {
            Fault::Unopened => "opened",
            Fault::Short => "header of 32 bytes",
            Fault::Magic => "magic ECMA130V",
            Fault::Version => "version 1",
            Fault::RecordSize => "record size 7052",
            Fault::FirstRecord => "first record at 32",
            Fault::Part => "whole records",
            Fault::Kind => "kinds 1 to 3",
        })
    }
}

// How many records were run, and of each kind.
#[derive(Clone, Copy, Default)]
struct Counts {
    records: u32,
    mode1: u32,
    form1: u32,
    form2: u32,
}

impl Counts {
    fn add(&mut self, kind: Kind) {
        let count = match kind {
            Kind::Mode1 => &mut self.mode1,
            Kind::Form1 => &mut self.form1,
            Kind::Form2 => &mut self.form2,
        };
        *count = count.wrapping_add(1);
        self.records = self.records.wrapping_add(1);
    }

    fn print(&self, t: &mut Tally) {
        let Counts {
            records,
            mode1,
            form1,
            form2,
        } = *self;
        t.text(format_args!("sectors.bin {records} records, {mode1}"));
        t.check(" of mode 1", mode1 > 0);
        t.text(format_args!(", {form1}"));
        t.check(" of form 1", form1 > 0);
        t.text(format_args!(", {form2}"));
        t.check(" of form 2", form2 > 0);
        t.text("\n");
    }
}

// How many records a header announces.
fn announced(header: &[u8; 32]) -> Result<u32, Fault> {
    if !header.starts_with(b"ECMA130V") {
        return Err(Fault::Magic);
    }
    if word(header, 8) != 1 {
        return Err(Fault::Version);
    }
    if word(header, 16) != SIZE as u32 {
        return Err(Fault::RecordSize);
    }
    if word(header, 20) != 32 {
        return Err(Fault::FirstRecord);
    }
    Ok(word(header, 12))
}

// So many bytes, or what is wrong where they do not come.
fn read<const N: usize>(from: &mut impl Read, fault: Fault) -> Result<[u8; N], Fault> {
    let mut bytes = [0; N];
    from.read_exact(&mut bytes).map_err(|_| fault)?;
    Ok(bytes)
}

// Runs so many records, each as it is read.
fn run_records(
    from: &mut impl Read,
    count: u32,
    counts: &mut Counts,
    t: &mut Tally,
) -> Result<(), Fault> {
    for number in 0..count {
        let bytes = read::<SIZE>(from, Fault::Part)?;
        let record = Record::try_from(&bytes)?;
        record.checks(number, t);
        counts.add(record.kind);
    }
    Ok(())
}

// A line of one check, which failed.
fn tell(fault: Fault, t: &mut Tally) {
    t.check(format_args!("sectors.bin {fault}"), false);
    t.text("\n");
}

// The records that came before a fault are counted.
fn run<R: Files>(rt: &R, t: &mut Tally) -> Result<(), Fault> {
    let mut file = fs::open(rt, "sectors.bin").map_err(|_| Fault::Unopened)?;
    let header = read(&mut file, Fault::Short)?;
    let count = announced(&header)?;
    let mut counts = Counts::default();
    if let Err(fault) = run_records(&mut file, count, &mut counts, t) {
        tell(fault, t);
    }
    counts.print(t);
    Ok(())
}

pub(crate) fn checks<R: Files>(rt: &R, t: &mut Tally) {
    if let Err(fault) = run(rt, t) {
        tell(fault, t);
    }
}
