// The rows of pairs by span, and the full cuts and full pairs of boundaries (`full_cut` and `full_pair` of context.rs).
ghost use Rattle.std.specs.Prelude.{◌≡◌, ℕ, ◌+◌, ◌*◌, ◌≤◌, ◌<◌, length, get_or};
ghost use Rattle.definitions.specs.Limits.{max_entries, tallies_per_span, numbers_per_pair};
ghost use Rattle.definitions.specs.Context.{Context, full_cut, full_pair};
ghost use Rattle.region_pairs.specs.Forms.{full_pair_of};
ghost use Rattle.context.specs.Shown.{ShownTallies, ShownPairs, ShownFullPairs};
ghost use Rattle.context.specs.Rows.{PairRows, SpanEnd, Stretch};

use crate::PartitionContext;
use definitions::limits::{MAX_ENTRIES, NUMBERS_PER_PAIR, TALLIES_PER_SPAN};
pub use region_pairs::{Pair, row_at};
use std::ops::Range;

// The first row from `first` on whose span is another; `rows` where there is none.
fn span_end(pairs: &[u32], rows: usize, first: usize, span: usize) -> usize
    requires pairs_room { numbers_per_pair * rows ≤ length pairs.now }
    requires ordered { first ≤ rows }
    ensures { SpanEnd pairs.now rows first span result }
{
    (first..rows)
        .find(|&k| pairs[NUMBERS_PER_PAIR * k] as usize != span)
        .unwrap_or(rows)
}

// The first row of each span, and the end of the last.
pub fn pair_starts(pairs: &[u32], rows: usize, count: usize, starts: &mut [usize; MAX_ENTRIES + 1])
    requires pairs_room { numbers_per_pair * rows ≤ length pairs.now }
    requires sizes { (count ≤ max_entries) × (length starts.old ≡ max_entries + 1) }
    ensures { (C : Context) → PairRows C pairs.now rows count → ShownPairs C pairs.now starts.new }
{
    let mut k = 0;
    for (s, start) in starts[..count].iter_mut().enumerate() {
        *start = k;
        k = span_end(pairs, rows, k, s);
    }
    starts[count] = k;
}

impl PartitionContext<'_> {
    // The rows of boundary i's pairs.
    pub fn rows(self, i: usize) -> Range<usize>
        requires { i < max_entries }
        ensures { (result.start ≡ get_or self.entry.starts.now i 0) × (result.end ≡ get_or self.entry.starts.now (i + 1) 0) }
    {
        self.starts[i]..self.starts[i + 1]
    }

    // The Rust also asks for a pair, and that each pair's labels differ: a span with a separated edge has such pairs only (laws: FullCut).
    pub fn full_cut(self, i: usize) -> bool
        requires { tallies_per_span * i + 1 < length self.tallies.now }
        ensures { (C : Context) → ShownTallies C self.entry.tallies.now → i < C.count → result ≡ full_cut C i }
    {
        let removed = self.tallies[TALLIES_PER_SPAN * i];
        let separated = self.tallies[TALLIES_PER_SPAN * i + 1];
        (0 < removed) & (removed == separated)
    }

    pub fn full_pair(self, i: usize) -> Option<Pair>
        requires tallies_room { tallies_per_span * i + 1 < length self.tallies.now }
        requires stretch { Stretch self.pairs.now self.starts.now i }
        ensures { (C : Context) →
            ShownTallies C self.entry.tallies.now →
            ShownPairs C self.entry.pairs.now self.entry.starts.now →
            i < C.count →
            full_pair_of result ≡ full_pair C i }
    {
        let rows = self.rows(i);
        if rows.end - rows.start != 1 {
            return None;
        }
        self.full_cut(i).then_some(row_at(self.pairs, rows.start))
    }

    // The full pair of each boundary.
    pub fn full_pairs(self, full: &mut [Option<Pair>; MAX_ENTRIES])
        requires sizes { (self.count ≤ max_entries) × (tallies_per_span * self.count ≤ length self.tallies.now) }
        requires room { length full.old ≡ max_entries }
        requires stretches { (i : ℕ) → i < self.count → Stretch self.pairs.now self.starts.now i }
        ensures { (C : Context) →
            C.count ≡ self.entry.count →
            ShownTallies C self.entry.tallies.now →
            ShownPairs C self.entry.pairs.now self.entry.starts.now →
            ShownFullPairs C full.new }
    {
        for (i, pair) in full[..self.count].iter_mut().enumerate() {
            *pair = self.full_pair(i);
        }
    }
}
