// Incidents: the spans with a pair naming a region (`incidents` of context.rs).
//
// A span that names a region in several pairs counts once. While counting, a region's entry is 512 times its incidents so far, plus one more than the number of
// the last span that counted: so one list serves, and each row is looked at once.
ghost use Rattle.std.specs.Prelude.{◌≡◌, map, ℕ, ◌+◌, ◌*◌, ◌/◌, ◌≤◌, ◌<◌, length, get_or};
ghost use Rattle.definitions.specs.Limits.{max_entries, numbers_per_pair};
ghost use Rattle.definitions.specs.Context.{Context, is_incident};
ghost use Rattle.context.specs.Shown.{pair_at, pairs_between, ShownPairs, ShownIncidents};
ghost use Rattle.laws.specs.ListLaws.Beyond.{Beyond};
ghost use Rattle.context.specs.Rows.{Stretch, NamedRow, NamedRows};
ghost use Rattle.context.specs.Packed.{pack_unit, counted_entry, count_region, count_pair, count_pairs, span_pairs, count_spans, unpacked, Packed};

use crate::PartitionContext;
use crate::pairs::row_at;
use std::ops::Range;

// Kept: two numbers in one, since of a region the lent list has one entry, and there is no heap for a second list.
const PACK_UNIT: u32 = 512;

// A region's entry once `span` names it.
fn counted(entry: u32, span: u32) -> u32
    requires { (entry / pack_unit ≤ max_entries) × (span < max_entries) }
    ensures { result ≡ counted_entry span entry }
{
    if entry % PACK_UNIT == span + 1 {
        entry
    } else {
        (entry / PACK_UNIT + 1) * PACK_UNIT + (span + 1)
    }
}

fn count_region(counts: &mut [u32], r: u32, span: u32)
    requires r_named { (1 ≤ r) × (r ≤ length counts.old) }
    requires places { (span < max_entries) × Packed span counts.old }
    ensures { counts.new ≡ count_region span counts.old r }
{
    let k = r as usize - 1;
    counts[k] = counted(counts[k], span);
}

fn count_pair(pairs: &[u32], k: usize, span: u32, counts: &mut [u32])
    requires named_row { NamedRow pairs.now (length counts.old) k }
    requires places { (span < max_entries) × Packed span counts.old }
    ensures { counts.new ≡ count_pair span counts.old (pair_at pairs.now k) }
{
    let pair = row_at(pairs, k);
    count_region(&mut *counts, pair.lo, span);
    count_region(&mut *counts, pair.hi, span);
}

// The regions that the rows name.
fn count_rows(pairs: &[u32], rows: Range<usize>, span: u32, counts: &mut [u32])
    requires ordered { rows.start ≤ rows.end }
    requires named_rows { (k : ℕ) → rows.start ≤ k → k < rows.end → NamedRow pairs.now (length counts.old) k }
    requires places { (span < max_entries) × Packed span counts.old }
    ensures { counts.new ≡ count_pairs span counts.old (pairs_between pairs.now rows.start rows.end) }
{
    for k in rows {
        count_pair(pairs, k, span, &mut *counts);
    }
}

// The counts alone, without the last spans.
fn unpack(counts: &mut [u32])
    ensures { counts.new ≡ map unpacked counts.old }
{
    for count in counts.iter_mut() {
        *count /= PACK_UNIT;
    }
}

impl PartitionContext<'_> {
    // Whether a row of span i names region r.
    pub fn is_incident(self, i: usize, r: u32) -> bool
        requires { Stretch self.pairs.now self.starts.now i }
        ensures { (C : Context) → ShownPairs C self.entry.pairs.now self.entry.starts.now → i < C.count → result ≡ is_incident C i r }
    {
        self.rows(i).any(|k| row_at(self.pairs, k).contains(r))
    }

    // Every span's rows, each span once for each region that it names.
    fn count_spans(self, counts: &mut [u32])
        requires named_rows { NamedRows self.pairs.now self.starts.now self.count (length counts.old) }
        requires counts_clear { (k : ℕ) → get_or counts.old k 0 ≡ 0 }
        ensures { counts.new ≡ count_spans (span_pairs self.entry.pairs.now self.entry.starts.now) self.entry.count counts.old }
    {
        for i in 0..self.count {
            count_rows(self.pairs, self.rows(i), i as u32, &mut *counts);
        }
    }

    fn count_regions(self, counts: &mut [u32])
        requires named_rows { NamedRows self.pairs.now self.starts.now self.count (length counts.old) }
        requires counts_clear { (k : ℕ) → get_or counts.old k 0 ≡ 0 }
        ensures { counts.new ≡ map unpacked (count_spans (span_pairs self.entry.pairs.now self.entry.starts.now) self.entry.count counts.old) }
    {
        self.count_spans(&mut *counts);
        unpack(counts);
    }

    // From zeros, how many incidents each of the regions has.
    pub fn count_incidents(self, regions: usize, counts: &mut [u32])
        requires named_rows { NamedRows self.pairs.now self.starts.now self.count regions }
        requires sizes { (regions ≤ length counts.old) × ((k : ℕ) → k < regions → get_or counts.old k 0 ≡ 0) }
        ensures shown { (C : Context) →
            C.count ≡ self.entry.count →
            C.regions ≡ regions →
            ShownPairs C self.entry.pairs.now self.entry.starts.now →
            ShownIncidents C counts.new }
        ensures beyond { Beyond regions counts.old counts.new }
    {
        self.count_regions(&mut counts[..regions]);
    }
}
