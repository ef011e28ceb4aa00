// The calls that the ring's memory is lent to: a sector, a look at the oldest block, and the host's word.
ghost use Rattle.std.specs.Prelude.{◌≡◌, ◌&&◌};
ghost use Rattle.reply.specs.Reply.{number_of};
ghost use Rattle.chip.specs.Calls.{sector_number, lent, sector_lent, look_part, looked, word_told};
ghost use Rattle.chip.specs.Chip.{ring_fits};
ghost use Rattle.chip.specs.Sound.{sound};
ghost use Rattle.chip.specs.Told.{told_of, word_told_of};

use crate::{Accepted, Chip, Part, conclude};
use reply::{Refusal, refuse_if};
use ring::BLOCK;
use sector::LENGTH;

impl Chip {
    // What every call with a lent ring tests first: a sound record, and a ring of its N blocks.
    // Ruled out: one that takes a ring of N blocks and a byte, and one that looks at the ring alone.
    pub fn ready(self, ring: &[u8]) -> bool
        ensures { result ≡ (sound self && ring_fits self ring.now) }
    {
        self.sound() && ring.len() == usize::from(self.place.n) * BLOCK
    }

    // Whether a sector is taken, before a byte of it is moved: of the sector only its length is looked at.
    // Ruled out: one that admits a sector at the ring's stop, and one that answers 7 or 8 where a length is wrong.
    #[tactic(auto, unfolding(crate::specs::Calls::sector_number), using(crate::proofs::Answers::word_place))]
    pub fn admission(self, ring: &[u8], sector: &[u8]) -> Result<(), Refusal>
        ensures { number_of result ≡ sector_number self ring.now sector.now }
    {
        refuse_if(
            !(self.ready(ring) && sector.len() == LENGTH),
            Refusal::Unfit,
        )?;
        self.controller.admission(self.place.full())
    }

    // Ruled out: one that counts a bad sector in TCC too, and one that stores a sector it refuses.
    #[tactic(auto, unfolding(crate::specs::Calls::sector_told, crate::specs::Calls::sector_ring))]
    pub fn sector(self, ring: &mut [u8], sector: &[u8]) -> Result<Accepted, Refusal>
        ensures { lent (told_of self result) ring.new ≡ sector_lent self ring.old sector.now }
    {
        self.admission(ring, sector)?;
        let Some(sector) = sector.as_array::<LENGTH>() else {
            unreachable!();
        };
        let judgement = ring::store(ring, self.place.b, sector, self.controller.expected);
        Ok(conclude(self.place, self.controller.counted(judgement)))
    }

    // Where the oldest block's window lies in the ring; no bytes where there is none.
    // Ruled out: one that gives block B's, and one that gives a part when TCC is 0.
    #[tactic(auto, unfolding(crate::specs::Calls::look_part))]
    pub fn look_part(self, ring: &[u8]) -> Part
        ensures { result ≡ look_part self ring.now }
    {
        let Chip { controller, place } = self;
        if !(self.ready(ring) && controller.counts.tcc != 0 && controller.window.words != 0) {
            return Part::default();
        }
        Part {
            start: ring::window_start(place.t, controller.window.offset),
            size: 2 * usize::from(controller.window.words),
        }
    }

    // Ruled out: one that shows block B, and one that shows a block when TCC is 0.
    #[tactic(auto, using(crate::proofs::Answers::look_end, crate::proofs::Answers::look_shows))]
    pub fn look(self, ring: &[u8]) -> &[u8]
        ensures { result.now ≡ looked self ring.now }
    {
        let Part { start, size } = self.look_part(ring);
        &ring[start..start + size]
    }

    // Ruled out: one whose word is constant, and one that serves block B, or counts TCC and T only at the transfer's end.
    #[tactic(auto, unfolding(crate::specs::Calls::word_told), using(crate::proofs::Answers::word_place, crate::proofs::Answers::word_in, crate::proofs::Answers::word_barred))]
    pub fn host_word(self, ring: &[u8]) -> Result<Accepted, Refusal>
        ensures { word_told_of self result ≡ word_told self ring.now }
    {
        refuse_if(!self.ready(ring), Refusal::Unfit)?;
        let Chip { controller, place } = self;
        let step = controller.host_word()?;
        let value = ring::word_of(
            ring,
            place.t,
            controller.window.offset,
            controller.transfer.position,
        );
        Ok(Accepted {
            value,
            ..conclude(place, step)
        })
    }
}
