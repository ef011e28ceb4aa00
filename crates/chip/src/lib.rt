// The chip: controller and ring's place as one record that each call takes and gives back, with the ring's memory lent where a
// call touches it.
#![tactic(auto)]

mod memory;
mod plain;
mod sound;

ghost use Rattle.std.specs.Prelude.{◌≡◌, ◌&&◌, leb};
ghost use Rattle.controller.specs.Step.{accepted};
ghost use Rattle.controller.specs.Transfer.{concluded};
ghost use Rattle.ring.specs.Place.{PlaceSound};
ghost use Rattle.chip.specs.Chip.{closed, opened, opened_of, finished};
ghost use Rattle.chip.specs.Told.{accepted_told};

use controller::Controller;
use reply::{Refusal, refuse_if};
use ring::Place;

#[derive(Clone, Copy, Debug, PartialEq, Eq, Default)]
pub struct Chip {
    pub controller: Controller,
    pub place: Place,
}

// A call that was not refused: the chip afterwards, and the result or the word that is handed over.
#[derive(Clone, Copy, Debug, PartialEq, Eq)]
pub struct Accepted {
    pub chip: Chip,
    pub value: u16,
}

// A part of the ring: its first byte and how many it has.
#[derive(Clone, Copy, Debug, PartialEq, Eq, Default)]
pub struct Part {
    pub start: usize,
    pub size: usize,
}

impl Chip {
    // A record of no blocks, which every call but the opening refuses.
    // Ruled out: a record of 3 blocks, and one with TCC 1.
    pub fn closed() -> Chip
        ensures { result ≡ closed }
    {
        Chip {
            controller: Controller::initial(),
            place: Place::opened(0),
        }
    }

    // Ruled out: one that takes a ring of 2 or 256 blocks, and one that opens with TCC 1.
    #[tactic(auto, unfolding(crate::specs::Chip::opened))]
    pub fn open(n: u16) -> Result<Chip, Refusal>
        ensures { opened_of result ≡ opened n }
    {
        refuse_if(!is_ring_size(n), Refusal::Unfit)?;
        Ok(Chip {
            controller: Controller::initial(),
            place: Place::opened(n),
        })
    }
}

// Whether a ring may have so many blocks.
fn is_ring_size(n: u16) -> bool
    ensures { result ≡ (leb 3 n && leb n 255) }
{
    (3..=255).contains(&n)
}

// The end of every call for which the controller has taken its step. A call of its own would hand the whole record over, field by field, and back.
#[inline(always)]
fn conclude(place: Place, step: controller::Accepted) -> Accepted
    requires { PlaceSound place }
    ensures { accepted_told result ≡ finished place (concluded (accepted step)) }
{
    let step = step.conclude();
    Accepted {
        chip: Chip {
            controller: step.controller,
            place: place.step(step.event),
        },
        value: step.value,
    }
}
