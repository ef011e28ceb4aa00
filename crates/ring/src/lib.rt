// The ring's place: the number of blocks, the transfer block, the next block to fill and the last decoded one
// (paper 01, "The ring"). Only here is anything taken modulo the number of blocks.
#![tactic(auto)]

mod memory;

ghost use Rattle.std.specs.Prelude.{◌≡◌, ◌+◌, ◌%◌, ◌<◌};
ghost use Rattle.ring.specs.Place.{opened, ring_facts, full, place_step, PlaceSound};

use controller::{Event, RingFacts};
pub use memory::{BLOCK, store, window_start, word_of};

#[derive(Clone, Copy, Debug, PartialEq, Eq, Default)]
pub struct Place {
    pub n: u16,
    pub t: u16,
    pub b: u16,
    pub last: u16,
}

// k blocks after block t, turn by turn, so that nothing is divided. In a sound chip a step is of one block, or of at most TCC, which is below N: then one turn
// is taken off at most.
fn after(t: u16, k: u16, n: u16) -> u16
    requires { 0 < n }
    ensures { result ≡ (t + k) % n }
{
    let turn = u32::from(n);
    let mut place = u32::from(t) + u32::from(k);
    while turn <= place {
        place -= turn;
    }
    place as u16
}

impl Place {
    pub fn opened(n: u16) -> Place
        ensures { result ≡ opened n }
    {
        Place {
            n,
            ..Place::default()
        }
    }

    // What a call is told of the ring.
    pub fn facts(self) -> RingFacts
        ensures { result ≡ ring_facts self }
    {
        let Place { n, t, last, .. } = self;
        RingFacts { n, t, last }
    }

    // The ring's own stop.
    pub fn full(self) -> bool
        requires { PlaceSound self }
        ensures { result ≡ full self }
    {
        after(self.b, 1, self.n) == self.t
    }

    pub fn step(mut self, event: Event) -> Place
        requires { PlaceSound self }
        ensures { result ≡ place_step self event }
    {
        match event {
            Event::Stay => {}
            Event::Store => {
                self.last = self.b;
                self.b = after(self.b, 1, self.n);
            }
            Event::Advance(k) => self.t = after(self.t, k, self.n),
            Event::Rewind(k) => self.b = after(self.t, k, self.n),
            Event::Move(k) => {
                self.t = k;
                self.b = k;
            }
            Event::Clear => self = Place::opened(self.n),
        }
        self
    }
}
