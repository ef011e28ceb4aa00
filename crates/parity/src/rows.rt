// The sums of the data of many words at once. P words stand side by side in rows of 86 bytes, so that a row has one symbol of each. Q words run down the same
// rows aslant.
ghost use Rattle.std.specs.Prelude.{◌≡◌, Bool, ◌+◌, ◌*◌, ◌<◌, ◌≤◌};
ghost use Rattle.laws.specs.Listed.{listed};
ghost use Rattle.parity.specs.Layout.{p, q};
ghost use Rattle.parity.specs.Rows.{view, first_row, AreSums, q_lane, met, in_word_order, Summed};

use crate::sums::Sums;

// Bytes 12 to 97, the first row, as the words see them.
fn first_row(sector: &[u8; 2352], masked: bool) -> [u8; 86]
    ensures { result ≡ first_row masked sector.now }
{
    let mut row = [0; 86];
    if masked {
        row[4..].copy_from_slice(&sector[16..98]);
    } else {
        row.copy_from_slice(&sector[12..98]);
    }
    row
}

// The rows from byte 12 on, as the words see them. The first is held apart, since its first four bytes may count as 0.
#[derive(Drop)]
pub struct Rows<'a> {
    first: [u8; 86],
    sector: &'a [u8; 2352],
}

impl<'a> Rows<'a> {
    pub fn new(sector: &'a [u8; 2352], masked: bool) -> Self
        ensures first { result.first ≡ first_row masked result.sector.now }
        ensures sector { result.sector.now ≡ sector.now }
    {
        Rows {
            first: first_row(sector, masked),
            sector,
        }
    }

    // Row i.
    fn row(&self, i: usize) -> &[u8]
        requires { i < 26 }
        ensures { result.now ≡ listed 86 (λ u. view self.now.first self.now.sector.now (12 + 86 * i + u)) }
    {
        if i == 0 {
            &self.first
        } else {
            let sector = self.sector;
            let start = 12 + 86 * i;
            &sector[start..start + 86]
        }
    }

    // The sums of the data of every P word. The first row goes before the loop, which then reads from one place alone.
    // Ruled out: one that takes in a row too few, and one that clears the header where it counts.
    pub fn p_sums(&self) -> Sums<86>
        ensures { (z : Bool) → self.now.first ≡ first_row z self.now.sector.now → Summed p z self.now.sector.now result.plain result.weighted }
    {
        let mut sums = Sums::none();
        sums.take_in(0, self.row(0));
        for i in 1..24 {
            sums.take_in(0, self.row(i));
        }
        sums
    }

    // The symbols that the Q words meet from step `from` on and before step `to`: at step r word n meets row r % 26, in column r - n. So with the last word
    // first in the sums, a row's bytes stand as their words do. Up to step 24 words begin, one a step; from step 43 on they end, one a step, the first word
    // first.
    #[inline(always)]
    fn meet(&self, sums: &mut Sums<52>, from: usize, to: usize)
        requires steps { (from ≤ to) × (to ≤ 68) }
        requires before { AreSums (q_lane (view self.now.first self.now.sector.now)) (met from) 52 sums.old.plain sums.old.weighted }
        ensures { AreSums (q_lane (view self.now.first self.now.sector.now)) (met to) 52 sums.new.plain sums.new.weighted }
    {
        for r in from..to {
            let row = self.row(r % 26);
            let column = (2 * r).saturating_sub(50);
            let start = 50_usize.saturating_sub(2 * r);
            let end = (136 - 2 * r).min(52);
            sums.take_in(start, &row[column..column + (end - start)]);
        }
    }

    // The sums of the data of every Q word, in the words' own order. The steps are taken in three parts, since in the middle one all words go along: there
    // a compiler knows the bounds, and keeps the sums in registers.
    // Ruled out: one that swaps the planes, and one that does not come back to the first row.
    pub fn q_sums(&self) -> Sums<52>
        ensures { (z : Bool) → self.now.first ≡ first_row z self.now.sector.now → Summed q z self.now.sector.now result.plain result.weighted }
    {
        let mut sums = Sums::none();
        self.meet(&mut sums, 0, 25);
        self.meet(&mut sums, 25, 43);
        self.meet(&mut sums, 43, 68);
        in_word_order(&sums)
    }
}

// The sums in the words' own order.
fn in_word_order(sums: &Sums<52>) -> Sums<52>
    ensures plain { result.plain ≡ in_word_order sums.now.plain }
    ensures weighted { result.weighted ≡ in_word_order sums.now.weighted }
{
    let mut ordered = Sums::none();
    for v in 0..52 {
        let place = 50 - 2 * (v / 2) + v % 2;
        ordered.plain[v] = sums.plain[place];
        ordered.weighted[v] = sums.weighted[place];
    }
    ordered
}
