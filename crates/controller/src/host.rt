// The host's side: words, commands, packet words, status reads and SRST. The words themselves are the ring's to hand over.
ghost use Rattle.std.specs.Prelude.{◌≡◌, ◌<◌};
ghost use Rattle.controller.specs.Host.{data_ended, ended, block_taken, host_word, packet_begun, host_command, packet_more, packet_word, host_status, host_srst};
ghost use Rattle.controller.specs.Step.{accepted, step_of};

use crate::state::{Atsta, Controller, Packet, Transfer};
use crate::step::{Accepted, Event};
use crate::write::byte;
use reply::{Refusal, refuse_if};

impl Controller {
    #[tactic(auto, unfolding(crate::specs::Host::data_ended))]
    fn data_ended(mut self) -> Controller
        ensures { result ≡ data_ended self }
    {
        if self.asctrl.adcen {
            self.atsta.drq = false;
            self.atsta.bsy = true;
        }
        self
    }

    // The end steps of a transfer or a reception.
    #[tactic(auto, unfolding(crate::specs::Host::ended))]
    fn ended(self) -> Controller
        ensures { result ≡ ended self }
    {
        let ended = self.data_ended();
        if self.asctrl.ascen {
            ended.complete()
        } else {
            ended
        }
    }

    fn block_taken(mut self) -> Controller
        ensures { result ≡ block_taken self }
    {
        self.counts.tcc = self.counts.tcc.saturating_sub(1);
        self.counts.bufc = self.counts.bufc.saturating_sub(1);
        self.counts.ttc = self.counts.ttc.saturating_sub(1);
        self.transfer.left = self.transfer.left.saturating_sub(1);
        self.transfer.position = 0;
        self
    }

    #[tactic(auto, unfolding(crate::specs::Host::host_word))]
    pub fn host_word(mut self) -> Result<Accepted, Refusal>
        ensures { step_of self result ≡ host_word self }
    {
        refuse_if(!self.transfer.running, Refusal::Unready)?;
        // Wider than a position, so that the sum never wraps.
        if u32::from(self.transfer.position) + 1 < u32::from(self.window.words) {
            self.transfer.position += 1;
            return Ok(self.done());
        }
        let mut taken = self.block_taken();
        if self.transfer.left <= 1 {
            taken.transfer.running = false;
            taken = taken.ended();
        }
        Ok(taken.moves(Event::Advance(1)))
    }

    fn packet_begun(mut self) -> Controller
        ensures { result ≡ packet_begun self }
    {
        self.packet = Packet {
            apkt: true,
            receiving: true,
            ..Packet::default()
        };
        self.task.aterr = 0;
        self.task.atint = 1;
        self.atsta = Atsta {
            drdy: true,
            dsc: self.adsc,
            drq: true,
            ..Atsta::default()
        };
        self.hirq = self.asctrl.a0ien;
        self.asctrl.apkten = false;
        self
    }

    #[tactic(auto, unfolding(crate::specs::Host::host_command))]
    pub fn host_command(mut self, code: u16) -> Result<Accepted, Refusal>
        ensures { step_of self result ≡ host_command self code }
    {
        let atcmd = byte(code)?;
        refuse_if(self.atsta.bsy || self.engaged(), Refusal::Barred)?;
        self.hirq = false;
        self.task.atcmd = atcmd;
        if code == 0xA0 && self.asctrl.apkten {
            return Ok(self.packet_begun().done());
        }
        self.atsta.bsy = true;
        Ok(self.done())
    }

    fn packet_more(mut self, word: u16) -> Controller
        requires { self.packet.received < 6 }
        ensures { result ≡ packet_more self word }
    {
        let first = 2 * usize::from(self.packet.received);
        [self.packet.bytes[first], self.packet.bytes[first + 1]] = word.to_le_bytes();
        self.packet.received += 1;
        self
    }

    #[tactic(auto, unfolding(crate::specs::Host::packet_word))]
    pub fn packet_word(self, word: u16) -> Result<Accepted, Refusal>
        requires { self.packet.received < 6 }
        ensures { step_of self result ≡ packet_word self word }
    {
        refuse_if(!self.packet.receiving, Refusal::Unready)?;
        let mut more = self.packet_more(word);
        if self.packet.received < 5 {
            return Ok(more.done());
        }
        more.packet.received = 0;
        more.packet.receiving = false;
        more.packet.fpkt = true;
        Ok(more.ended().done())
    }

    pub fn host_status(mut self) -> Accepted
        ensures { accepted result ≡ host_status self }
    {
        let status = self.atsta_byte();
        self.hirq = false;
        self.shows(status)
    }

    pub fn host_srst(mut self) -> Accepted
        ensures { accepted result ≡ host_srst self }
    {
        self.transfer = Transfer::default();
        self.packet.receiving = false;
        self.packet.received = 0;
        self.packet.apkt = false;
        self.packet.fpkt = false;
        self.counts.ttc = 0;
        self.atsta.bsy = false;
        self.hirq = false;
        self.signed().done()
    }
}
