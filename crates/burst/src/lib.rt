// The host's words in bursts. Up to a block's last word nothing changes but the transfer's position, so these words are copied at once; the
// last goes through the chip's own call.
#![tactic(auto)]

mod copy;

ghost use Rattle.std.specs.Prelude.{◌≡◌, ◌+◌, ◌<◌, ◌≤◌, IfOk, length, take, drop};
ghost use Rattle.laws.specs.Bytes.{words_at};
ghost use Rattle.chip.specs.Calls.{next_place, next_word};
ghost use Rattle.burst.specs.Burst.{host_words, told_of, burst_told, written, prepend, ahead, advanced, handed_by, following};

use chip::Chip;
use controller::Controller;
use copy::copy_words;
use reply::Refusal;

// The chip after a burst, how many words were handed over, and the refusal that ended it, if one did.
#[derive(Clone, Copy, Debug, PartialEq, Eq)]
pub struct Burst {
    pub chip: Chip,
    pub handed: usize,
    pub refusal: Option<Refusal>,
}

// How many words can be read before the present block's last one.
// Ruled out: one that counts the last word too, and one that counts words of a record that is unsound.
#[tactic(auto, unfolding(crate::specs::Burst::ahead))]
pub fn ahead(chip: Chip, ring: &[u8]) -> u16
    ensures { result ≡ ahead chip ring.now }
{
    let Controller {
        transfer,
        window,
        ..
    } = chip.controller;
    if !(chip.ready(ring) && transfer.running) {
        return 0;
    }
    window
        .words
        .saturating_sub(1)
        .saturating_sub(transfer.position)
}

// The word that the host reads next, where one is ahead.
#[tactic(auto, using(crate::proofs::Blocks::ahead_end))]
pub fn next_word(chip: Chip, ring: &[u8]) -> u16
    requires { 0 < ahead chip ring.now }
    ensures { result ≡ next_word chip ring.now }
{
    let Controller {
        transfer,
        window,
        ..
    } = chip.controller;
    ring::word_of(ring, chip.place.t, window.offset, transfer.position)
}

fn advanced(mut chip: Chip, k: u16) -> Chip
    requires { chip.controller.transfer.position + k < 65536 }
    ensures { result ≡ advanced chip k }
{
    chip.controller.transfer.position += k;
    chip
}

// Words of one block, none of them its last.
fn inside(chip: Chip, ring: &[u8], out: &mut [u16]) -> Chip
    requires out_len_bound { length out.old ≤ ahead chip ring.now }
    requires out_nonzero { 0 < length out.old }
    ensures chip { result ≡ advanced chip (length out.old) }
    ensures words { out.new ≡ words_at ring.now (next_place chip) (length out.old) }
{
    let Controller {
        transfer,
        window,
        ..
    } = chip.controller;
    let count = out.len() as u16;
    let from = ring::window_start(chip.place.t, window.offset) + 2 * usize::from(transfer.position);
    copy_words(ring, from, out);
    advanced(chip, count)
}

// What a part of a burst leaves: the chip, and how many words it handed over.
#[derive(Clone, Copy)]
struct Turned {
    chip: Chip,
    handed: usize,
}

// At least one word, or the refusal of the first.
#[tactic(auto, using(crate::proofs::Turns::turn_refused, crate::proofs::Turns::turn_one))]
fn turn(chip: Chip, ring: &[u8], out: &mut [u16]) -> Result<Turned, Refusal>
    requires { 0 < length out.old }
    ensures run { host_words (length out.old) chip ring.now ≡ prepend (take (handed_by result) out.new) (following (length out.old) chip ring.now result) }
    ensures rest { drop (handed_by result) out.new ≡ drop (handed_by result) out.old }
    ensures some { IfOk result (λ t. (0 < t.handed) × (t.handed ≤ length out.old)) }
{
    let run = usize::from(ahead(chip, ring)).min(out.len());
    if run == 0 {
        let next = chip.host_word(ring)?;
        out[0] = next.value;
        return Ok(Turned {
            chip: next.chip,
            handed: 1,
        });
    }
    Ok(Turned {
        chip: inside(chip, ring, &mut out[..run]),
        handed: run,
    })
}

// As many words as `out` has room for, until one is refused.
// Ruled out: one that hands over a word more or less at a block's end, and one that writes behind the words that it hands over.
#[tactic(auto, using(crate::proofs::Turns::full_told, crate::proofs::Turns::full_written))]
pub fn host_words(chip: Chip, ring: &[u8], out: &mut [u16]) -> Burst
    ensures told { burst_told result ≡ told_of (host_words (length out.old) chip ring.now) }
    ensures words { out.new ≡ written (host_words (length out.old) chip ring.now) out.old }
{
    let mut burst = Burst {
        chip,
        handed: 0,
        refusal: None,
    };
    while burst.handed < out.len() {
        match turn(burst.chip, ring, &mut out[burst.handed..]) {
            Ok(turn) => {
                burst.chip = turn.chip;
                burst.handed += turn.handed;
            }
            Err(refusal) => {
                return Burst {
                    refusal: Some(refusal),
                    ..burst
                };
            }
        }
    }
    burst
}
