// Named calls: set T, window, expected address, packet byte, chip reset.
ghost use Rattle.std.specs.Prelude.{◌≡◌};
ghost use Rattle.controller.specs.declared.step.Event.TheVariants.{Clear};
ghost use Rattle.controller.specs.Named.{set_block, window_fits, set_window, set_expected, packet_byte};
ghost use Rattle.controller.specs.State.{initial};
ghost use Rattle.controller.specs.Step.{accepted, replied, step_of};

use crate::state::{Controller, Window};
use crate::step::{Accepted, Event};
use reply::{Refusal, refuse_if};
use sector::Address;

impl Window {
    // Ruled out: one that takes 0 words, and one that takes an end above 2,352.
    pub fn fits(self) -> bool
        ensures { result ≡ window_fits self.offset self.words }
    {
        let Window { offset, words } = self;
        (1..=1176).contains(&words) && u32::from(offset) + 2 * u32::from(words) <= 2352
    }
}

impl Controller {
    // n is the number of blocks.
    #[tactic(auto, unfolding(crate::specs::Named::set_block))]
    pub fn set_block(self, block: u16, n: u16) -> Result<Accepted, Refusal>
        ensures { step_of self result ≡ set_block self block n }
    {
        refuse_if(block >= n, Refusal::OutOfRange)?;
        refuse_if(self.transfer.running, Refusal::Barred)?;
        refuse_if(
            self.buffering.decen || self.counts.tcc != 0,
            Refusal::Unready,
        )?;
        Ok(self.moves(Event::Move(block)))
    }

    #[tactic(auto, unfolding(crate::specs::Named::set_window))]
    pub fn set_window(mut self, offset: u16, words: u16) -> Result<Accepted, Refusal>
        ensures { step_of self result ≡ set_window self offset words }
    {
        let window = Window { offset, words };
        refuse_if(!window.fits(), Refusal::OutOfRange)?;
        refuse_if(self.transfer.running, Refusal::Barred)?;
        self.window = window;
        Ok(self.done())
    }

    #[tactic(auto, unfolding(crate::specs::Named::set_expected))]
    pub fn set_expected(mut self, address: Address) -> Result<Accepted, Refusal>
        ensures { step_of self result ≡ set_expected self address }
    {
        refuse_if(!address.valid(), Refusal::OutOfRange)?;
        refuse_if(self.buffering.decen, Refusal::Unready)?;
        self.expected = address;
        Ok(self.done())
    }

    #[tactic(auto, unfolding(crate::specs::Named::packet_byte))]
    pub fn packet_byte(self, index: u16) -> Result<Accepted, Refusal>
        ensures { step_of self result ≡ packet_byte self index }
    {
        let Some(&byte) = self.packet.bytes.get(usize::from(index)) else {
            return Err(Refusal::OutOfRange);
        };
        refuse_if(!self.packet.fpkt, Refusal::TooFew)?;
        Ok(self.shows(u16::from(byte)))
    }

    pub fn reset() -> Accepted
        ensures { accepted result ≡ replied initial Clear 0 }
    {
        Controller::initial().moves(Event::Clear)
    }
}
