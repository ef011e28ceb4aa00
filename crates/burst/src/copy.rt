// Words of the ring copied into lent memory.
ghost use Rattle.std.specs.Prelude.{◌≡◌, ◌+◌, ◌*◌, ◌≤◌, length};
ghost use Rattle.laws.specs.Bytes.{words_at};

use slices::word_at;

// Fills `out` with the words from byte `from` on, the first byte of each low.
pub(crate) fn copy_words(ring: &[u8], from: usize, out: &mut [u16])
    requires { from + 2 * length out.old ≤ length ring.now }
    ensures { out.new ≡ words_at ring.now from (length out.old) }
{
    for (i, word) in out.iter_mut().enumerate() {
        *word = word_at(ring, from + 2 * i);
    }
}
