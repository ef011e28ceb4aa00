// The lent memory: a sector is received into its block, and a word of a block is read.
ghost use Rattle.std.specs.Prelude.{◌≡◌, ◌+◌, ◌*◌, ◌<◌, ◌≤◌, length};
ghost use Rattle.laws.specs.Bytes.{word_at};
ghost use Rattle.sector.specs.Receive.{received};
ghost use Rattle.ring.specs.Memory.{base, stored};

use sector::{Address, Judgement, LENGTH};
use slices::word_at;

// The bytes of a block.
pub const BLOCK: usize = 2560;

// Receives a sector into block b, which is lent for it: the blocks before and after it stay.
// Ruled out: one that writes into the next block, and one that judges what the block held before.
pub fn store(ring: &mut [u8], b: u16, sector: &[u8; LENGTH], expected: Address) -> Judgement
    requires { base b + 2352 ≤ length ring.old }
    ensures judged { result ≡ (received expected sector.now).judgement }
    ensures ring { ring.new ≡ stored ring.old b (received expected sector.now).bytes }
{
    let (_, rest) = ring.split_at_mut(usize::from(b) * BLOCK);
    let Some(block) = rest.first_chunk_mut::<LENGTH>() else {
        unreachable!();
    };
    sector::receive(block, sector, expected)
}

// The place in the ring of the byte of block t that its offset gives.
// Ruled out: one that leaves the offset out, and one that gives the next block's byte.
pub fn window_start(t: u16, offset: u16) -> usize
    ensures { result ≡ base t + offset }
{
    usize::from(t) * BLOCK + usize::from(offset)
}

// A word of block t, its first byte low.
// Ruled out: one that gives the first byte as the high one, and one that gives the same word at every place.
pub fn word_of(ring: &[u8], t: u16, offset: u16, place: u16) -> u16
    requires { base t + offset + 2 * place + 1 < length ring.now }
    ensures { result ≡ word_at ring.now (base t + offset + 2 * place) }
{
    word_at(ring, window_start(t, offset) + 2 * usize::from(place))
}
