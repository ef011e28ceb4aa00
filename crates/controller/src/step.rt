// What a controller call answers: the controller afterwards, what becomes of the ring, and the result. A refusal gives no controller: whoever called has it still.
ghost use Rattle.std.specs.Prelude.{◌≡◌};
ghost use Rattle.controller.specs.declared.step.Event.TheVariants.{Stay};
ghost use Rattle.controller.specs.Step.{accepted, replied};

use crate::state::Controller;

// Stay: the ring is as it was. Store: block B was filled, B goes on. Advance: T goes on by so many blocks.
// Rewind: B comes to stand so many blocks after T. Move: T and B come to stand at a block. Clear: as opened.
#[derive(Clone, Copy, Debug, PartialEq, Eq)]
pub enum Event {
    Stay,
    Store,
    Advance(u16),
    Rewind(u16),
    Move(u16),
    Clear,
}

// What a call is told of the ring: the number of blocks, which bounds BUFLIM and T, and the block numbers that are read.
#[derive(Clone, Copy, Debug, PartialEq, Eq)]
pub struct RingFacts {
    pub n: u16,
    pub t: u16,
    pub last: u16,
}

// A call that was not refused.
#[derive(Clone, Copy, Debug, PartialEq, Eq)]
pub struct Accepted {
    pub controller: Controller,
    pub event: Event,
    pub value: u16,
}

impl Controller {
    // Done, with no result; the ring stays.
    pub(crate) fn done(self) -> Accepted
        ensures { accepted result ≡ replied self Stay 0 }
    {
        self.moves(Event::Stay)
    }

    // Done, with no result.
    pub(crate) fn moves(self, event: Event) -> Accepted
        ensures { accepted result ≡ replied self event 0 }
    {
        Accepted {
            controller: self,
            event,
            value: 0,
        }
    }

    // Done, with a result; the ring stays.
    pub(crate) fn shows(self, value: u16) -> Accepted
        ensures { accepted result ≡ replied self Stay value }
    {
        Accepted {
            controller: self,
            event: Event::Stay,
            value,
        }
    }
}
