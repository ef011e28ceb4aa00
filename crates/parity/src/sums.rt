// The two sums of words that stand side by side, so that a row of bytes has one symbol of each: taking in a row is one step for all of them. And the two parity
// symbols of each word, from the sums of its data.
ghost use Rattle.std.specs.Prelude.{◌≡◌, ◌++◌, ◌+◌, ◌≤◌, length, get_or, take, drop, replicate};
ghost use Rattle.parity.specs.Rows.{Taken, firsts, seconds, all_fit};

use crate::field::times_x;
use crate::tables::Division;

// The sums of N words, plain and weighted.
#[derive(Clone, Copy)]
pub struct Sums<const N: usize> {
    pub plain: [u8; N],
    pub weighted: [u8; N],
}

impl<const N: usize> Sums<N> {
    // The sums of no symbols.
    pub fn none() -> Self
        ensures { (result.plain ≡ replicate N 0) × (result.weighted ≡ replicate N 0) }
    {
        Sums {
            plain: [0; N],
            weighted: [0; N],
        }
    }

    // One more symbol for each of the words from place k on.
    pub fn take_in(&mut self, k: usize, symbols: &[u8])
        requires { k + length symbols.now ≤ N }
        ensures { Taken (λ u. get_or symbols.now u 0) k (length symbols.now) self.old.plain self.old.weighted self.new.plain self.new.weighted }
    {
        for (v, x) in symbols.iter().enumerate() {
            self.plain[k + v] ^= *x;
            self.weighted[k + v] = times_x(self.weighted[k + v]) ^ *x;
        }
    }

    // Writes the words' first parity symbols, and behind them the second ones.
    // Ruled out: one that swaps the two, and one that forgets that the data stand two powers above the parity.
    pub fn solve(&self, division: &Division, parity: &mut [u8])
        requires { length parity.old ≡ N + N }
        ensures { parity.new ≡ firsts self.now.plain self.now.weighted ++ seconds self.now.plain self.now.weighted }
    {
        let (first, second) = parity.split_at_mut(N);
        for v in 0..N {
            let sum = self.plain[v];
            let symbol = division.quotient(times_x(times_x(self.weighted[v])) ^ sum);
            first[v] = symbol;
            second[v] = symbol ^ sum;
        }
    }

    // Whether the words hold that have these sums of their data, and then the symbols of parity, as solve writes them.
    // Ruled out: one that looks at the plain sums alone, and one that leaves out the last word.
    pub fn fit(&self, parity: &[u8]) -> bool
        requires { length parity.now ≡ N + N }
        ensures { result ≡ all_fit self.now.plain self.now.weighted (take N parity.now) (drop N parity.now) }
    {
        let (first, second) = parity.split_at(N);
        let mut held = true;
        for v in 0..N {
            let plain = self.plain[v] ^ first[v] ^ second[v];
            let weighted = times_x(times_x(self.weighted[v]) ^ first[v]) ^ second[v];
            held &= (plain == 0) & (weighted == 0);
        }
        held
    }
}
