// The bench: a line of input, given to the chip that is open, and the line that is printed; and the lines of a text, one after the other
// (paper 01, "Bench cases").
#![tactic(auto)]

mod call;
mod disc;
mod lines;

ghost use Rattle.std.specs.Prelude.{◌≡◌, ◌≤◌};
ghost use Rattle.reply.specs.Reply.{reply_of};
ghost use Rattle.script.specs.Answers.{answer_by, answered};
ghost use Rattle.script.specs.Bench.{started, ran};
ghost use Rattle.script.specs.Disc.{carried_after};
ghost use Rattle.syntax.specs.Print.{longest};

use chip::{Accepted, Chip};
pub use disc::{Carried, Damage};
pub use lines::{Fed, feed};
use reply::Refusal;
use syntax::line::Line;
pub use syntax::print::ROOM;

// The chip that is open, or, where none is, the record whose counters are shown; what sectors carry, and how many lines there have been.
#[derive(Clone, Copy, Debug, PartialEq, Eq)]
pub struct Bench {
    pub chip: Result<Chip, Chip>,
    pub carried: Carried,
    pub lines: u64,
}

// The bench after a line, and the length of the printed line.
#[derive(Clone, Copy, Debug, PartialEq, Eq)]
pub struct Ran {
    pub bench: Bench,
    pub size: usize,
}

impl Bench {
    // Before any line: no chip is open.
    // Ruled out: a bench with a chip open, and one whose count begins at 1.
    pub fn start() -> Bench
        ensures { result ≡ started }
    {
        Bench {
            chip: Err(Chip::closed()),
            carried: Carried::at_first(),
            lines: 0,
        }
    }

    // Answers a line, where the bench lies. A refused one changes nothing of it. It stays a call of its own, so that a bench which a line leaves as it was is not
    // taken apart into its fields.
    #[tactic(auto, unfolding(crate::specs::Disc::carried_after))]
    #[inline(never)]
    fn answer(
        &mut self,
        memory: &mut [u8],
        sector: &mut [u8],
        line: Option<Line>,
    ) -> Result<u16, Refusal>
        ensures answer { record { answer = answer_by self.new.chip (reply_of result); memory = memory.new; sector = sector.new }
            ≡ answered self.old.chip self.old.carried memory.old sector.old line }
        ensures carried { self.new.carried ≡ carried_after self.old.carried line (reply_of result).number }
        ensures lines { self.new.lines ≡ self.old.lines }
    {
        let Accepted { chip, value } = self.outcome(memory, sector, line)?;
        if let Some(line) = line {
            self.carried = self.carried.by_line(line);
        }
        self.chip = Ok(chip);
        Ok(value)
    }

    // Runs one line, given without its end, and puts the line to print at the start of `out`; with less room than `ROOM` nothing is done.
    // The ring is the start of the memory; the sector is a buffer of 2,352 bytes, in which a sector line seals.
    // Ruled out: one that gives the chip a call before an accepted opening, and one that prints the counters as they were before the call.
    #[tactic(auto, unfolding(crate::specs::Bench::ran), using(crate::proofs::Running::runs))]
    pub fn run(mut self, memory: &mut [u8], sector: &mut [u8], line: &[u8], out: &mut [u8]) -> Ran
        ensures told { record { result = result; memory = memory.new; sector = sector.new; out = out.new }
            ≡ ran self memory.old sector.old line.now out.old }
        ensures within { result.size ≤ longest }
    {
        if out.len() < ROOM {
            return Ran {
                bench: self,
                size: 0,
            };
        }
        let line = syntax::line::parse(line);
        let reply = self.answer(memory, sector, line);
        self.lines = self.lines.wrapping_add(1);
        let size = syntax::print::print(out, self.shown(reply));
        Ran { bench: self, size }
    }
}
