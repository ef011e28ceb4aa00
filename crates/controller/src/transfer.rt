// Transfers: the start, by 17h or by itself, status completion and the signature.
ghost use Rattle.std.specs.Prelude.{◌≡◌, ◌+◌, ◌*◌, ◌<◌, ◌≤◌, min};
ghost use Rattle.controller.specs.Step.{accepted, step_of};
ghost use Rattle.controller.specs.Transfer.{engaged, start_switches, limit, most_blocks, blocks_asked, start_blocks, byte_count, begun, start, settled, concluded, completed, signed};

use crate::state::{Atsta, Controller, Task, Transfer};
use crate::step::Accepted;
use reply::{Refusal, refuse_if};

// The blocks that are asked for, but no more than have 65,534 bytes, which are 32,767 words. Those above are taken off one by one, so that nothing is divided:
// in a sound record, which asks for 32 blocks of 1,176 words at most, there are five at most.
fn within_words(asked: u16, words: u16) -> u16
    requires { 0 < words }
    ensures { result ≡ min asked (most_blocks words) }
{
    let one = u32::from(words);
    let mut blocks = asked;
    let mut total = u32::from(asked) * one;
    while total > 32767 {
        total -= one;
        blocks -= 1;
    }
    blocks
}

impl Controller {
    pub fn engaged(self) -> bool
        ensures { result ≡ engaged self }
    {
        self.transfer.running || self.packet.receiving
    }

    fn start_switches(self) -> bool
        ensures { result ≡ start_switches self }
    {
        self.acctl.acmen && self.asctrl.adcen && self.window.words != 0 && self.atsta.bsy
    }

    fn limit(self) -> u16
        ensures { (result ≡ limit self) × (result < 256) }
    {
        match self.acctl.atlim {
            0 => 32,
            atlim => u16::from(atlim),
        }
    }

    fn blocks_asked(self) -> u16
        ensures { (result ≡ blocks_asked self) × (result ≤ 256) }
    {
        if self.counts.ttc == 0 {
            u16::from(self.mbc) + 1
        } else {
            self.limit().min(self.counts.tcc).min(self.counts.ttc)
        }
    }

    // The blocks of a start that has a window.
    fn start_blocks(self) -> u16
        requires { 0 < self.window.words }
        ensures { (result ≡ start_blocks self) × (result ≤ 256) }
    {
        within_words(self.blocks_asked(), self.window.words)
    }

    // The count fits in its two registers.
    #[tactic(auto, unfolding(crate::specs::Transfer::byte_count))]
    fn byte_count(mut self) -> Controller
        requires { (self.mbc + 1) * self.window.words * 2 < 65536 }
        ensures { result ≡ byte_count self }
    {
        if self.asctrl.stwcen {
            let bytes = (u16::from(self.mbc) + 1) * self.window.words * 2;
            let [atblo, atbhi] = bytes.to_le_bytes();
            self.task = Task {
                atblo,
                atbhi,
                ..self.task
            };
        }
        self
    }

    fn begun(mut self) -> Controller
        ensures { result ≡ begun self }
    {
        self.task.atint = 2;
        self.atsta.drq = true;
        self.atsta.bsy = false;
        self.hirq = true;
        self.transfer = Transfer {
            running: true,
            left: u16::from(self.mbc) + 1,
            position: 0,
        };
        self
    }

    // ASTRG (17h) 04h, where it is not barred.
    #[tactic(auto, using(crate::proofs::Starts::windowed, crate::proofs::Starts::fits), unfolding(crate::specs::Transfer::start))]
    pub fn start(mut self) -> Result<Accepted, Refusal>
        ensures { step_of self result ≡ start self }
    {
        refuse_if(!self.start_switches(), Refusal::Unready)?;
        let blocks = self.start_blocks();
        refuse_if(blocks == 0 || self.counts.tcc < blocks, Refusal::TooFew)?;
        self.mbc = (blocks - 1) as u8;
        Ok(self.byte_count().begun().done())
    }

    // What follows an accepted call by itself.
    #[tactic(auto, unfolding(crate::specs::Transfer::settled))]
    fn settle(self) -> Controller
        ensures { result ≡ settled self }
    {
        if self.acctl.atten
            && self.counts.ttc != 0
            && !self.engaged()
            && let Ok(started) = self.start()
        {
            started.controller
        } else {
            self
        }
    }

    // Status completion, by ASTRG (17h) 01h or as an end step.
    pub fn complete(mut self) -> Controller
        ensures { result ≡ completed self }
    {
        self.atsta = Atsta {
            drdy: self.ascsta.drdy,
            dsc: self.atsta.dsc,
            corr: self.ascsta.corr,
            check: self.ascsta.check,
            ..Atsta::default()
        };
        self.task.atint = 3;
        self.hirq = true;
        self.asctrl.apkten |= self.asctrl.autoen;
        self.asctrl.ascen = false;
        self
    }

    // The ATAPI signature, by ASTRG (17h) 10h or SRST.
    pub fn signed(mut self) -> Controller
        ensures { result ≡ signed self }
    {
        self.task.atblo = 0x14;
        self.task.atbhi = 0xEB;
        self.atsta = Atsta {
            bsy: self.atsta.bsy,
            dsc: self.atsta.dsc,
            ..Atsta::default()
        };
        self
    }
}

impl Accepted {
    // The end of every accepted call: a start may follow.
    #[tactic(auto, unfolding(crate::specs::Transfer::concluded))]
    pub fn conclude(mut self) -> Accepted
        ensures { accepted result ≡ concluded (accepted self) }
    {
        self.controller = self.controller.settle();
        self
    }
}
