// One dispatch for the calls that touch no memory.
ghost use Rattle.std.specs.Prelude.{◌≡◌, ◌<◌};
ghost use Rattle.controller.specs.Calls.{stepped};
ghost use Rattle.controller.specs.Step.{step_of};

use crate::state::Controller;
use crate::step::{Accepted, RingFacts};
use calls::Call;
use reply::Refusal;

impl Controller {
    #[tactic(auto, unfolding(crate::specs::Calls::stepped))]
    pub fn step(self, call: Call, ring: RingFacts) -> Result<Accepted, Refusal>
        requires { self.packet.received < 6 }
        ensures { step_of self result ≡ stepped self call ring }
    {
        match call {
            Call::Write(reg, value) => self.write(reg, value, ring.n),
            Call::Read(reg) => self.read(reg, ring),
            Call::SetBlock(block) => self.set_block(block, ring.n),
            Call::SetWindow(offset, words) => self.set_window(offset, words),
            Call::SetExpected(address) => self.set_expected(address),
            Call::PacketByte(index) => self.packet_byte(index),
            Call::Reset => Ok(Controller::reset()),
            Call::Command(code) => self.host_command(code),
            Call::PacketWord(word) => self.packet_word(word),
            Call::Status => Ok(self.host_status()),
            Call::Srst => Ok(self.host_srst()),
        }
    }
}
