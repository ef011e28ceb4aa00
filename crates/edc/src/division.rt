// The division by x^(31*64) + x^(15*64) + x^(3*64) + 1, of which each word of the quotient is the word divided, with the words of the
// quotient 16, 28 and 31 before it. The last 32 of them stand in a ring; the next takes the place of the oldest.
ghost use Rattle.std.specs.Prelude.{◌≡◌, ◌+◌, ◌*◌, ◌≤◌, drop};
ghost use Rattle.edc.specs.Edc.{edc};
ghost use Rattle.edc.specs.Fold.{held, Reach};

use crate::words::word;

// The quotient's last 32 words.
#[derive(Default, Drop)]
pub struct Ring {
    pub words: [u64; 32],
}

impl Ring {
    // Divides the words that go to the places from `start` to `end`. Of the places read, 16, 4 and 1 on, those past the ring's end are a, b
    // or c less: numbers that are known where this is called, so that no index is masked.
    fn stretch(&mut self, run: &[u8; 256], start: usize, end: usize, a: usize, b: usize, c: usize)
        requires start_le_end { start ≤ end }
        requires end_bound { end ≤ 32 }
        requires reach { Reach start end 16 a }
        requires reach_2 { Reach start end 4 b }
        requires reach_3 { Reach start end 1 c }
        ensures { edc (held self.new.words end) (drop (8 * end) run.now) ≡ edc (held self.old.words start) (drop (8 * start) run.now) }
    {
        for i in start..end {
            self.words[i] = word(run, i)
                ^ self.words[i + 16 - a]
                ^ self.words[i + 4 - b]
                ^ self.words[i + 1 - c];
        }
    }

    // Divides the 32 words of a run of bytes, once round the ring.
    // Ruled out: one that reads the words in another order, and one that leaves out the last of them.
    pub fn turn(&mut self, run: &[u8; 256])
        ensures { held self.new.words 0 ≡ edc (held self.old.words 0) run.now }
    {
        self.stretch(run, 0, 16, 0, 0, 0);
        self.stretch(run, 16, 28, 32, 0, 0);
        self.stretch(run, 28, 31, 32, 32, 0);
        self.stretch(run, 31, 32, 32, 32, 32);
    }
}
