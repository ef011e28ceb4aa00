// Reading registers. 24h and 3Ah are the ring's, which tells them.
ghost use Rattle.std.specs.Prelude.{◌≡◌};
ghost use Rattle.controller.specs.Read.{asctrl_byte, miss2_byte, atsta_byte, bicctl_byte, acctl_byte, read};
ghost use Rattle.controller.specs.Step.{step_of};

use crate::state::Controller;
use crate::step::{Accepted, RingFacts};
use numbers::weight;
use reply::Refusal;

impl Controller {
    fn asctrl_byte(self) -> u16
        ensures { result ≡ asctrl_byte self }
    {
        weight(self.asctrl.apkten, 0x80)
            + weight(self.asctrl.adcen, 0x40)
            + weight(self.asctrl.ascen, 0x20)
            + weight(self.asctrl.autoen, 0x10)
            + weight(self.asctrl.stwcen, 0x08)
            + weight(self.asctrl.a0ien, 0x01)
    }

    fn miss2_byte(self) -> u16
        ensures { result ≡ miss2_byte self }
    {
        weight(self.packet.fpkt, 0x02) + weight(self.packet.apkt, 0x01)
    }

    pub fn atsta_byte(self) -> u16
        ensures { result ≡ atsta_byte self }
    {
        weight(self.atsta.bsy, 0x80)
            + weight(self.atsta.drdy, 0x40)
            + weight(self.atsta.dsc, 0x10)
            + weight(self.atsta.drq, 0x08)
            + weight(self.atsta.corr, 0x04)
            + weight(self.atsta.check, 0x01)
    }

    fn bicctl_byte(self) -> u16
        ensures { result ≡ bicctl_byte self }
    {
        weight(self.buffering.blimen, 0x20) + weight(self.buffering.blims, 0x10)
    }

    fn acctl_byte(self) -> u16
        ensures { result ≡ acctl_byte self }
    {
        weight(self.acctl.atten, 0x80)
            + weight(self.acctl.acmen, 0x40)
            + weight(self.acctl.tcincen, 0x20)
            + u16::from(self.acctl.atlim)
    }

    #[tactic(auto, unfolding(crate::specs::Read::read))]
    pub fn read(self, reg: u16, ring: RingFacts) -> Result<Accepted, Refusal>
        ensures { step_of self result ≡ read self reg ring }
    {
        let value = match reg {
            0x12 => u16::from(self.mbc),
            0x18 => self.asctrl_byte(),
            0x24 => ring.t,
            0x25 => 0,
            0x30 => self.miss2_byte(),
            0x31 => u16::from(self.task.aterr),
            0x32 => u16::from(self.task.atint),
            0x34 => u16::from(self.task.atblo),
            0x35 => u16::from(self.task.atbhi),
            0x37 => u16::from(self.task.atcmd),
            0x38 => self.atsta_byte(),
            0x3A => ring.last,
            0x3B => 0,
            0x80 => self.judgement.tarsta(),
            0x9A => self.bicctl_byte(),
            0x9B => self.counts.bufc,
            0x9C => self.acctl_byte(),
            0x9D => self.counts.tcc,
            0x9F => self.counts.ttc,
            _ => return Err(Refusal::Unlisted),
        };
        Ok(self.shows(value))
    }
}
