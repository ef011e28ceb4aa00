// A sector from the disc: admitted before a byte of it is moved, counted once it is stored and judged.
ghost use Rattle.std.specs.Prelude.{◌≡◌, ◌<◌};
ghost use Rattle.reply.specs.Reply.{number_of};
ghost use Rattle.controller.specs.Decoder.{at_stop, admission, counted};
ghost use Rattle.controller.specs.Step.{accepted};

use crate::state::Controller;
use crate::step::{Accepted, Event};
use reply::{Refusal, refuse_if};
use sector::Judgement;

impl Controller {
    fn at_stop(self, full: bool) -> bool
        ensures { result ≡ at_stop self full }
    {
        if self.buffering.blims {
            self.counts.bufc >= self.buffering.buflim
        } else {
            full
        }
    }

    // full: the ring's own test that B stands right before T.
    #[tactic(auto, unfolding(crate::specs::Decoder::admission))]
    pub fn admission(self, full: bool) -> Result<(), Refusal>
        ensures { number_of result ≡ admission self full }
    {
        refuse_if(!self.buffering.decen, Refusal::DecoderOff)?;
        refuse_if(self.counts.held, Refusal::AfterBad)?;
        refuse_if(self.at_stop(full), Refusal::AtStop)
    }

    #[tactic(auto, unfolding(crate::specs::Decoder::counted))]
    pub fn counted(mut self, judgement: Judgement) -> Accepted
        requires { (self.counts.tcc < 255) × (self.counts.bufc < 255) }
        ensures { accepted result ≡ counted self judgement }
    {
        self.counts.bufc += 1;
        self.judgement = judgement;
        if judgement.good() {
            self.counts.tcc += 1;
            self.expected = self.expected.next();
        } else {
            self.counts.held = true;
        }
        Accepted {
            controller: self,
            event: Event::Store,
            value: judgement.tarsta(),
        }
    }
}
