// Runs vectors from outside for the sectors of ECMA-130 through the library and compares: published values, what the calls refuse,
// and the records of the file sectors.bin, of mode 1 and of both forms of mode 2. Behind each check stands `ok` or `FAILED`, and the last line counts them.
#![tactic(auto)]

mod damage;
mod file;
mod kinds;
mod published;
mod record;
mod refusals;
mod tally;
mod words;

use tally::Tally;

fn main(rt: HostRuntime) {
    let mut t = Tally::new(rt.stdout());
    published::checks(&mut t);
    refusals::checks(&mut t);
    file::checks(&rt, &mut t);
    t.print();
}
