// Writing registers: the guards of each stand in the order of the reply numbers, as in its definition.
ghost use Rattle.std.specs.Prelude.{◌≡◌, ◌<◌, ◌≤◌, Ok, Err, All, ltb, if◌then◌else◌, ◌&&◌, ◌||◌, not, [], ◌∷◌};
ghost use Rattle.reply.specs.declared.Refusal.TheVariants.{OutOfRange};
ghost use Rattle.controller.specs.Bits.{bit, only};
ghost use Rattle.controller.specs.Fields.{◌▹◌, task≔};
ghost use Rattle.controller.specs.Step.{accepted, done, step_of};
ghost use Rattle.controller.specs.Write.{write_tack, decoder_off, write_ctrl0, write_mbtc0, write_astrg, asctrl_of, write_asctrl, write_atsta, write_apksta, write_ascsta, write_bicctl, write_buflim, acctl_of, write_acctl, write_tcc, write_skipc, write_ttc, write};

use crate::state::{Acctl, Ascsta, Asctrl, Atsta, Controller, Task};
use crate::step::{Accepted, Event};
use reply::{Refusal, refuse_if};

// Registers have eight bits.
pub(crate) fn byte(value: u16) -> Result<u8, Refusal>
    ensures { result ≡ (if ltb 255 value then Err OutOfRange else Ok value) }
{
    u8::try_from(value).map_err(|_| Refusal::OutOfRange)
}

// Ruled out: one that gives the bit above it, and one that gives whether any bit is set.
pub fn bit(value: u16, k: u16) -> bool
    requires { k < 16 }
    ensures { result ≡ bit value k }
{
    (value >> k) & 1 == 1
}

// Every bit of the value but these is 0.
fn only<const N: usize>(bits: [u16; N], value: u16) -> bool
    requires few { N ≤ 16 }
    requires within { All (λ k. k < 16) bits }
    ensures { result ≡ only bits.entry value }
{
    let value = u32::from(value);
    let mut kept = 0;
    for k in bits {
        kept += ((value >> k) & 1) << k;
    }
    kept == value
}

impl Controller {
    #[tactic(auto, unfolding(crate::specs::Write::write_tack))]
    fn write_tack(mut self, value: u16) -> Result<Accepted, Refusal>
        ensures { step_of self result ≡ write_tack self value }
    {
        refuse_if(value > 255, Refusal::OutOfRange)?;
        self.packet.apkt = false;
        Ok(self.done())
    }

    fn decoder_off(mut self) -> Accepted
        ensures { accepted result ≡ decoder_off self }
    {
        self.buffering.decen = false;
        self.counts.bufc = self.counts.tcc;
        self.counts.held = false;
        self.moves(Event::Rewind(self.counts.tcc))
    }

    #[tactic(auto, unfolding(crate::specs::Write::write_ctrl0))]
    fn write_ctrl0(mut self, value: u16) -> Result<Accepted, Refusal>
        ensures { step_of self result ≡ write_ctrl0 self value }
    {
        match value {
            0x00 => Ok(self.decoder_off()),
            0x80 if self.buffering.blimen && self.acctl.tcincen => {
                self.buffering.decen = true;
                Ok(self.done())
            }
            0x80 => Err(Refusal::Unready),
            _ => Err(Refusal::OutOfRange),
        }
    }

    #[tactic(auto, unfolding(crate::specs::Write::write_mbtc0))]
    fn write_mbtc0(mut self, value: u16) -> Result<Accepted, Refusal>
        ensures { step_of self result ≡ write_mbtc0 self value }
    {
        refuse_if(value > 31, Refusal::OutOfRange)?;
        refuse_if(self.transfer.running, Refusal::Barred)?;
        self.mbc = value as u8;
        Ok(self.done())
    }

    #[tactic(auto, unfolding(crate::specs::Write::write_astrg))]
    fn write_astrg(self, value: u16) -> Result<Accepted, Refusal>
        ensures { step_of self result ≡ write_astrg self value }
    {
        match value {
            0x01 | 0x04 | 0x10 if self.engaged() => Err(Refusal::Barred),
            0x01 => Ok(self.complete().done()),
            0x04 => self.start(),
            0x10 => Ok(self.signed().done()),
            _ => Err(Refusal::OutOfRange),
        }
    }

    #[tactic(auto, unfolding(crate::specs::Write::write_asctrl))]
    fn write_asctrl(mut self, value: u16) -> Result<Accepted, Refusal>
        ensures { step_of self result ≡ write_asctrl self value }
    {
        let asctrl = Asctrl::try_from(value)?;
        refuse_if(self.engaged(), Refusal::Barred)?;
        self.asctrl = asctrl;
        Ok(self.done())
    }

    // ATERR (31h), ATINT (32h), ATBLO (34h) and ATBHI (35h) have no guard but their eight bits.
    fn with_task(mut self, task: Task) -> Accepted
        ensures { accepted result ≡ done (self ▹ task≔ task) }
    {
        self.task = task;
        self.done()
    }

    #[tactic(auto, unfolding(crate::specs::Write::write_atsta))]
    fn write_atsta(mut self, value: u16) -> Result<Accepted, Refusal>
        ensures { step_of self result ≡ write_atsta self value }
    {
        refuse_if(!only([7, 6, 4, 2, 0], value), Refusal::OutOfRange)?;
        refuse_if(self.engaged(), Refusal::Barred)?;
        self.atsta = Atsta {
            bsy: self.atsta.bsy,
            drdy: bit(value, 6),
            dsc: bit(value, 4),
            drq: false,
            corr: bit(value, 2),
            check: bit(value, 0),
        };
        Ok(self.done())
    }

    #[tactic(auto, unfolding(crate::specs::Write::write_apksta))]
    fn write_apksta(mut self, value: u16) -> Result<Accepted, Refusal>
        ensures { step_of self result ≡ write_apksta self value }
    {
        refuse_if(!only([4], value), Refusal::OutOfRange)?;
        self.adsc = bit(value, 4);
        Ok(self.done())
    }

    #[tactic(auto, unfolding(crate::specs::Write::write_ascsta))]
    fn write_ascsta(mut self, value: u16) -> Result<Accepted, Refusal>
        ensures { step_of self result ≡ write_ascsta self value }
    {
        self.ascsta = Ascsta::try_from(value)?;
        Ok(self.done())
    }

    #[tactic(auto, unfolding(crate::specs::Write::write_bicctl))]
    fn write_bicctl(mut self, value: u16) -> Result<Accepted, Refusal>
        ensures { step_of self result ≡ write_bicctl self value }
    {
        refuse_if(!only([5, 4], value), Refusal::OutOfRange)?;
        refuse_if(self.buffering.decen, Refusal::Unready)?;
        self.buffering.blimen = bit(value, 5);
        self.buffering.blims = bit(value, 4);
        Ok(self.done())
    }

    #[tactic(auto, unfolding(crate::specs::Write::write_buflim))]
    fn write_buflim(mut self, value: u16, n: u16) -> Result<Accepted, Refusal>
        ensures { step_of self result ≡ write_buflim self value n }
    {
        // Wider than a value, so that the sum never wraps.
        refuse_if(u32::from(value) + 2 > u32::from(n), Refusal::OutOfRange)?;
        refuse_if(self.buffering.decen, Refusal::Unready)?;
        self.buffering.buflim = value;
        Ok(self.done())
    }

    #[tactic(auto, using(crate::proofs::Bits::differs_by_beq), unfolding(crate::specs::Write::write_acctl))]
    fn write_acctl(mut self, value: u16) -> Result<Accepted, Refusal>
        ensures { step_of self result ≡ write_acctl self value }
    {
        let acctl = Acctl::try_from(value)?;
        refuse_if(self.transfer.running, Refusal::Barred)?;
        let changed = acctl.tcincen != self.acctl.tcincen;
        refuse_if(self.buffering.decen && changed, Refusal::Unready)?;
        self.acctl = acctl;
        if !acctl.acmen {
            self.counts.ttc = 0;
        }
        Ok(self.done())
    }

    #[tactic(auto, unfolding(crate::specs::Write::write_tcc))]
    fn write_tcc(mut self, value: u16) -> Result<Accepted, Refusal>
        ensures { step_of self result ≡ write_tcc self value }
    {
        refuse_if(value > 255, Refusal::OutOfRange)?;
        refuse_if(self.transfer.running, Refusal::Barred)?;
        refuse_if(self.buffering.decen, Refusal::Unready)?;
        refuse_if(value > self.counts.tcc, Refusal::TooFew)?;
        self.counts.tcc = value;
        self.counts.bufc = value;
        Ok(self.moves(Event::Rewind(value)))
    }

    #[tactic(auto, unfolding(crate::specs::Write::write_skipc))]
    fn write_skipc(mut self, value: u16) -> Result<Accepted, Refusal>
        ensures { step_of self result ≡ write_skipc self value }
    {
        refuse_if(value > 255, Refusal::OutOfRange)?;
        refuse_if(self.transfer.running, Refusal::Barred)?;
        if !self.acctl.acmen {
            return Ok(self.done());
        }
        refuse_if(value > self.counts.tcc, Refusal::TooFew)?;
        self.counts.tcc -= value;
        self.counts.bufc = self.counts.bufc.saturating_sub(value);
        Ok(self.moves(Event::Advance(value)))
    }

    #[tactic(auto, unfolding(crate::specs::Write::write_ttc))]
    fn write_ttc(mut self, value: u16) -> Result<Accepted, Refusal>
        ensures { step_of self result ≡ write_ttc self value }
    {
        refuse_if(value > 255, Refusal::OutOfRange)?;
        refuse_if(self.transfer.running, Refusal::Barred)?;
        if self.acctl.acmen {
            self.counts.ttc = value;
        }
        Ok(self.done())
    }

    // n is the number of blocks.
    #[tactic(auto, unfolding(crate::specs::Write::write, crate::specs::Write::write_task))]
    pub fn write(self, reg: u16, value: u16, n: u16) -> Result<Accepted, Refusal>
        ensures { step_of self result ≡ write self reg value n }
    {
        match reg {
            0x07 => self.write_tack(value),
            0x0A => self.write_ctrl0(value),
            0x12 => self.write_mbtc0(value),
            0x17 => self.write_astrg(value),
            0x18 => self.write_asctrl(value),
            0x31 => Ok(self.with_task(Task {
                aterr: byte(value)?,
                ..self.task
            })),
            0x32 => Ok(self.with_task(Task {
                atint: byte(value)?,
                ..self.task
            })),
            0x34 => Ok(self.with_task(Task {
                atblo: byte(value)?,
                ..self.task
            })),
            0x35 => Ok(self.with_task(Task {
                atbhi: byte(value)?,
                ..self.task
            })),
            0x37 => self.write_atsta(value),
            0x3D => self.write_apksta(value),
            0x3E => self.write_ascsta(value),
            0x9A => self.write_bicctl(value),
            0x9B => self.write_buflim(value, n),
            0x9C => self.write_acctl(value),
            0x9D => self.write_tcc(value),
            0x9E => self.write_skipc(value),
            0x9F => self.write_ttc(value),
            _ => Err(Refusal::Unlisted),
        }
    }
}

// Ruled out: one that lets ASCEN be set without ADCEN, and one that takes a value with bit 1.
impl TryFrom<u16> for Asctrl {
    type Error = Refusal;

    ghost try_from_gives = { λ value r. r ≡ (if only (7 ∷ 6 ∷ 5 ∷ 4 ∷ 3 ∷ 0 ∷ []) value && (bit value 6 || not (bit value 5)) then Ok (asctrl_of value) else Err OutOfRange) };

    fn try_from(value: u16) -> Result<Asctrl, Refusal> {
        refuse_if(!only([7, 6, 5, 4, 3, 0], value), Refusal::OutOfRange)?;
        let asctrl = Asctrl {
            apkten: bit(value, 7),
            adcen: bit(value, 6),
            ascen: bit(value, 5),
            autoen: bit(value, 4),
            stwcen: bit(value, 3),
            a0ien: bit(value, 0),
        };
        refuse_if(asctrl.ascen && !asctrl.adcen, Refusal::OutOfRange)?;
        Ok(asctrl)
    }
}

// Ruled out: one that takes a value with bit 4, which is not named, and one that reads CHECK at bit 1.
impl TryFrom<u16> for Ascsta {
    type Error = Refusal;

    ghost try_from_gives = { λ value r. r ≡ (if only (6 ∷ 2 ∷ 0 ∷ []) value then Ok (record { drdy = bit value 6; corr = bit value 2; check = bit value 0 }) else Err OutOfRange) };

    fn try_from(value: u16) -> Result<Ascsta, Refusal> {
        refuse_if(!only([6, 2, 0], value), Refusal::OutOfRange)?;
        Ok(Ascsta {
            drdy: bit(value, 6),
            corr: bit(value, 2),
            check: bit(value, 0),
        })
    }
}

// Ruled out: one that reads ATLIM of four bits, and one that takes a value above 255.
impl TryFrom<u16> for Acctl {
    type Error = Refusal;

    ghost try_from_gives = { λ value r. r ≡ (if ltb 255 value then Err OutOfRange else Ok (acctl_of value)) };

    fn try_from(value: u16) -> Result<Acctl, Refusal> {
        let atlim = byte(value)? % 32;
        Ok(Acctl {
            atten: bit(value, 7),
            acmen: bit(value, 6),
            tcincen: bit(value, 5),
            atlim,
        })
    }
}
