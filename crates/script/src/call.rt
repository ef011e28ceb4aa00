// What the bench answers to a line: the chip's answer, with the host word and the length of the look as numbers.
ghost use Rattle.std.specs.Prelude.{◌≡◌, Result, Ok, Err, IfOk};
ghost use Rattle.reply.specs.Reply.{number_of, reply_of};
ghost use Rattle.script.specs.Answers.{answer_of, answer_by, opening, look, disc_number, disc, said, called, closed, answered, shown};

use crate::Bench;
use crate::disc::{Carried, Damage, four_bytes, known};
use chip::{Accepted, Chip};
use reply::{Refusal, parts, refuse_if};
use ring::BLOCK;
use sector::{Address, LENGTH, agrees};
use syntax::line::Line;
use syntax::print::Shown;

// A ring above 25 blocks is refused as one that the chip refuses.
#[tactic(auto, unfolding(crate::specs::Answers::opening), using(crate::proofs::Answering::opening_barred))]
fn open(n: u16) -> Result<Accepted, Refusal>
    ensures { (before : Result Chip Chip) → answer_of before result ≡ opening before n }
{
    refuse_if(n > 25, Refusal::Unfit)?;
    let chip = Chip::open(n)?;
    Ok(Accepted { chip, value: 0 })
}

// Before an accepted opening every other call is refused as one whose switches are not set.
#[tactic(auto, unfolding(crate::specs::Answers::closed))]
fn closed(line: Line) -> Result<Accepted, Refusal>
    ensures { (shown : Chip) → answer_of (Err shown) result ≡ closed shown line }
{
    match line {
        Line::Open(n) => open(n),
        _ => Err(Refusal::Unready),
    }
}

// A chip that is open, and what the sectors that come to it carry.
#[derive(Clone, Copy)]
struct Drive {
    chip: Chip,
    carried: Carried,
}

impl Drive {
    // The length in bytes of the part that a look shows.
    #[tactic(auto, using(crate::proofs::Answering::look_short))]
    fn look(self, ring: &[u8]) -> Accepted
        ensures { answer_of (Ok self.chip) (Ok result) ≡ look self.chip ring.now }
    {
        let part = self.chip.look(ring);
        Accepted {
            chip: self.chip,
            value: part.len() as u16,
        }
    }

    // A line that says something of the next sectors.
    #[tactic(auto, unfolding(crate::specs::Answers::said))]
    fn said(self, in_range: bool) -> Result<Accepted, Refusal>
        ensures { answer_of (Ok self.chip) result ≡ said self.chip in_range }
    {
        refuse_if(!in_range, Refusal::OutOfRange)?;
        Ok(Accepted {
            chip: self.chip,
            value: 0,
        })
    }

    // Whether a sector line is run, before a byte is written; it gives the byte to fill the sector with.
    #[tactic(auto, unfolding(crate::specs::Answers::disc_number))]
    fn admission(
        self,
        ring: &[u8],
        sector: &[u8],
        address: Address,
        fill: u16,
    ) -> Result<u8, Refusal>
        ensures number { number_of result ≡ disc_number self.chip self.carried ring.now sector.now address fill }
        ensures fill { IfOk result (λ byte. byte ≡ fill) }
    {
        let Drive { chip, carried } = self;
        refuse_if(sector.len() != LENGTH, Refusal::Unfit)?;
        let byte = u8::try_from(fill).map_err(|_| Refusal::OutOfRange)?;
        refuse_if(!address.valid(), Refusal::OutOfRange)?;
        refuse_if(
            !agrees(carried.kind, carried.subheader),
            Refusal::OutOfRange,
        )?;
        chip.admission(ring, sector)?;
        Ok(byte)
    }

    // A sector sealed at the address as the kind that is carried, every user byte equal to the fill, as it arrives.
    #[tactic(auto, unfolding(crate::specs::Answers::disc))]
    fn disc(
        self,
        ring: &mut [u8],
        sector: &mut [u8],
        address: Address,
        fill: u16,
    ) -> Result<Accepted, Refusal>
        ensures { record { answer = answer_of (Ok self.chip) result; memory = ring.new; sector = sector.new }
            ≡ disc self.chip self.carried ring.old sector.old address fill }
    {
        let Drive { chip, carried } = self;
        let byte = self.admission(ring, sector, address, fill)?;
        sector.fill(byte);
        sector::seal(sector, address, carried.kind, carried.subheader)?;
        let Some(sector) = sector.as_mut_array::<LENGTH>() else {
            unreachable!();
        };
        carried.damage.scratch(sector);
        chip.sector(ring, sector)
    }

    // The calls of an open chip.
    #[tactic(auto, unfolding(crate::specs::Answers::called, crate::specs::Answers::word), using(crate::proofs::Answering::answer_told, crate::proofs::Answering::answer_word))]
    fn called(self, ring: &mut [u8], sector: &mut [u8], line: Line) -> Result<Accepted, Refusal>
        ensures { record { answer = answer_of (Ok self.chip) result; memory = ring.new; sector = sector.new }
            ≡ called self.chip self.carried ring.old sector.old line }
    {
        match line {
            Line::Open(n) => open(n),
            Line::Plain(call) => self.chip.call(call),
            Line::Look => Ok(self.look(ring)),
            Line::Take => self.chip.host_word(ring),
            Line::Disc(address, fill) => self.disc(ring, sector, address, fill),
            Line::Scratch(from, count) => self.said(Damage { from, count }.inside()),
            Line::SetKind(kind) => self.said(known(kind)),
            Line::SetSubheader(f, c, s, i) => self.said(four_bytes(f, c, s, i)),
        }
    }
}

impl Bench {
    // A line that the grammar has not is refused as a register that is not listed.
    // The ring of the open chip is the start of the lent memory, as long as its N blocks; the chip itself refuses one that is shorter.
    #[tactic(auto, unfolding(crate::specs::Answers::answered))]
    pub(crate) fn outcome(
        &self,
        memory: &mut [u8],
        sector: &mut [u8],
        line: Option<Line>,
    ) -> Result<Accepted, Refusal>
        ensures { record { answer = answer_of self.now.chip result; memory = memory.new; sector = sector.new }
            ≡ answered self.now.chip self.now.carried memory.old sector.old line }
    {
        let Bench { chip, carried, .. } = *self;
        let line = line.ok_or(Refusal::Unlisted)?;
        let Ok(chip) = chip else {
            return closed(line);
        };
        let size = (usize::from(chip.place.n) * BLOCK).min(memory.len());
        Drive { chip, carried }.called(&mut memory[..size], sector, line)
    }

    // What the printed line shows after a call: its reply, and of the open chip the counters, what failed of the last stored sector, and the interrupt.
    // Where none is open the counters are those of the record that is kept.
    pub(crate) fn shown(&self, reply: Result<u16, Refusal>) -> Shown
        ensures { result ≡ shown (answer_by self.now.chip (reply_of reply)) self.now.lines }
    {
        let (number, value) = parts(reply);
        let (Ok(chip) | Err(chip)) = &self.chip;
        let controller = &chip.controller;
        Shown {
            lines: self.lines,
            number,
            out: u64::from(value),
            tcc: controller.counts.tcc,
            bufc: controller.counts.bufc,
            why: controller.judgement.why(),
            irq: controller.hirq,
        }
    }
}
