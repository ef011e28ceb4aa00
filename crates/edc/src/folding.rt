// The quotient's last 31 words, in places 1 to 31, to the words that are left of the division, and these to one word.
ghost use Rattle.std.specs.Prelude.{◌≡◌, true, ℕ, ◌+◌, ◌-◌, ◌*◌, ◌/◌, ◌<◌, ◌≤◌, get_or};
ghost use Rattle.std.specs.Int.Bits.{bit_xor};
ghost use Rattle.edc.specs.Fold.{shifts, scale, code, along, held};

use crate::division::Ring;
use crate::register::join_two;

impl Ring {
    // Xors into each word the one that stands `back` places before it.
    #[tactic(auto, using(crate::proofs::Ring::back_none, crate::proofs::Ring::back_end))]
    fn add_back(&mut self, back: usize)
        requires le_back { 16 ≤ back }
        requires back_bound { back ≤ 31 }
        ensures kept { (k : ℕ) → k ≤ back → get_or self.new.words k 0 ≡ get_or self.old.words k 0 }
        ensures total { code (along self.new.words 1) 31 ≡ bit_xor (code (along self.old.words 1) 31) (code (along self.old.words 1) (31 - back)) }
    {
        for i in back + 1..32 {
            self.words[i] ^= self.words[i - back];
        }
    }

    // The 31 words that leave the same register as the words that were divided.
    #[tactic(auto, using(crate::proofs::Ring::left_over))]
    fn add_both_back(&mut self)
        ensures { code (along self.new.words 1) 31 ≡ held self.old.words 0 }
    {
        self.add_back(16);
        self.add_back(28);
    }

    // Xors y in d bits after the start of word i.
    #[tactic(auto, using(crate::proofs::Moved::put_law))]
    fn put(&mut self, i: usize, d: usize, y: u64)
        requires { i + d / 64 + 1 < 32 }
        ensures { (e : ℕ) → e ≤ i + d / 64 → code (along self.new.words e) (32 - e) ≡ bit_xor (code (along self.old.words e) (32 - e)) (shifts (64 * (32 - i) - d) y) }
    {
        let j = i + d / 64;
        self.words[j] ^= y << (d % 64);
        self.words[j + 1] ^= (y >> 1) >> (63 - d % 64);
    }

    // Folds the words from `start` to `end` by the scale s: the words after them leave the same register.
    fn fold(&mut self, start: usize, end: usize, s: usize)
        requires start_le_end { start ≤ end }
        requires le_s { 4 ≤ s }
        requires s_bound { end + 31 * s / 64 + 1 ≤ 32 }
        requires s_value { scale 5 s ≡ true }
        ensures { code (along self.new.words end) (32 - end) ≡ code (along self.old.words start) (32 - start) }
    {
        for i in start..end {
            let y = self.words[i];
            self.put(i, 16 * s, y);
            self.put(i, 28 * s, y);
            self.put(i, 31 * s, y);
        }
    }

    // The ring as one word, which leaves the register that the ring stands for.
    // Ruled out: one that leaves out a scale, and one that folds the quotient and not what is left of the division.
    #[tactic(auto, using(crate::proofs::Halves::code_two), unfolding(crate::specs::Fold::scale))]
    pub fn one_word(&mut self) -> u64
        ensures { shifts 64 result ≡ held self.old.words 0 }
    {
        self.add_both_back();
        self.fold(1, 16, 32);
        self.fold(16, 24, 16);
        self.fold(24, 28, 8);
        self.fold(28, 30, 4);
        join_two(self.words[30], self.words[31])
    }
}
