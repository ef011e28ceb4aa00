// The calls of the chip that the ring's memory is lent to.
ghost use Rattle.std.specs.Prelude.{◌≡◌, length};
ghost use Rattle.chip.specs.Calls.{sector_told, sector_ring, look_part, word_told};
ghost use Rattle.encoding.specs.Words.{decoded};
ghost use Rattle.burst.specs.Burst.{host_words, written};
ghost use Rattle.exports.specs.Chips.{Answered, WordAnswered, WordsAnswered};

use crate::answer::{packed, write_back};
use burst::{ahead, host_words, next_word};
use chip::Part;
use encoding::{advance, decode, encode};

// A sector as it comes from the disc.
// Ruled out: one that stores a sector it refuses, and one that keeps the record as it was.
#[unsafe(no_mangle)]
pub extern "C" fn cdrom_chip_sector(chip: &mut [u16; 28], ring: &mut [u8], sector: &[u8]) -> u32
    ensures answer { Answered (sector_told (decoded chip.old) ring.old sector.now) result chip.old chip.new }
    ensures ring { ring.new ≡ sector_ring (decoded chip.old) ring.old sector.now }
{
    let told = decode(chip).sector(ring, sector);
    write_back(chip, told)
}

// A look: where it lies, and how many bytes it has.
// Ruled out: one that gives the offset of block B, and one that gives bytes where TCC is 0.
#[unsafe(no_mangle)]
pub extern "C" fn cdrom_chip_look(chip: &[u16; 28], ring: &[u8], offset: &mut usize) -> usize
    ensures { record { start = offset.new; size = result } ≡ look_part (decoded chip.now) ring.now }
{
    let Part { start, size } = decode(chip).look_part(ring);
    *offset = start;
    size
}

// The host reads a word. Before a block's last one only the position changes, so that the record need not be written whole.
// Ruled out: one that serves the word after it, and one that moves on where it refuses.
#[unsafe(no_mangle)]
#[tactic(auto, using(crate::proofs::Chips::position_small))]
pub extern "C" fn cdrom_chip_word(chip: &mut [u16; 28], ring: &[u8]) -> u32
    ensures { WordAnswered (word_told (decoded chip.old) ring.now) result chip.old chip.new }
{
    let before = decode(chip);
    if ahead(before, ring) != 0 {
        advance(chip);
        return packed(Ok(next_word(before, ring)));
    }
    write_back(chip, before.host_word(ring))
}

// The host reads as many words as there is room for, until one is refused.
// Ruled out: one that hands over a word more or less at a block's end, and one that gives a refusal's number after words.
#[unsafe(no_mangle)]
pub extern "C" fn cdrom_chip_words(
    chip: &mut [u16; 28],
    ring: &[u8],
    words: &mut [u16],
    handed: &mut usize,
) -> u32
    ensures answer { WordsAnswered (host_words (length words.old) (decoded chip.old) ring.now) result handed.new chip.old chip.new }
    ensures words { words.new ≡ written (host_words (length words.old) (decoded chip.old) ring.now) words.old }
{
    let burst = host_words(decode(chip), ring, words);
    *handed = burst.handed;
    if burst.handed == 0 {
        return burst.refusal.map_or(0, |refusal| packed(Err(refusal)));
    }
    encode(chip, burst.chip);
    0
}
