// The test that a record is sound, in paper 01's order ("Reply numbers").
ghost use Rattle.std.specs.Prelude.{◌≡◌};
ghost use Rattle.chip.specs.Sound.{transfer_sound, sound};

use crate::{Chip, is_ring_size};
use controller::Controller;

fn transfer_sound(controller: Controller) -> bool
    ensures { result ≡ transfer_sound controller }
{
    let Controller {
        transfer,
        window,
        counts,
        ..
    } = controller;
    !transfer.running
        || (0 < transfer.left && transfer.left <= counts.tcc && transfer.position < window.words)
}

impl Chip {
    #[tactic(auto, unfolding(crate::specs::Sound::sound))]
    pub(crate) fn sound(self) -> bool
        ensures { result ≡ sound self }
    {
        let Chip { controller, place } = self;
        let Controller {
            counts,
            window,
            buffering,
            ..
        } = controller;
        is_ring_size(place.n)
            && place.t < place.n
            && place.b < place.n
            && counts.tcc < place.n
            && counts.bufc < place.n
            && (window.words == 0 || window.fits())
            && controller.expected.valid()
            && transfer_sound(controller)
            && place.last < place.n
            && u32::from(buffering.buflim) + 2 <= u32::from(place.n)
            && counts.ttc <= 255
            && controller.mbc <= 31
            && controller.acctl.atlim <= 31
            && controller.packet.received < 6
    }
}
