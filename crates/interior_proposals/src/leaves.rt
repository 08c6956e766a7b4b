// The leaves beyond the ports of a candidate. A leaf found gets the candidate's name, so that the regions named r are those of the expansion.
ghost use Rattle.std.specs.Prelude.{◌≡◌, Bool, false, cond, List, ℕ, ◌+◌, ◌-◌, ◌%◌, ◌≤◌, length, set, eqb, leb};
ghost use Rattle.definitions.specs.Scan.{all, member};
ghost use Rattle.definitions.specs.Context.{Context};
ghost use Rattle.definitions.specs.RampInteriors.{inside_count, exteriors, expand_pair, expand_pairs};
ghost use Rattle.context.specs.Shown.{pairs_between};
ghost use Rattle.context.specs.Rows.{pair_form};
ghost use Rattle.interior_proposals.specs.Given.{Marked};
ghost use Rattle.interior_proposals.specs.Owners.{Walkable, entry_at};
ghost use Rattle.interior_proposals.specs.Leaves.{Reachable, Inside, Exteriored, Cleared, from, Held, RowOf, Ported, Walked};

use crate::components::{EXTERIOR, SINGLE, is_named, set_name};
use context::pairs::{Pair, row_at};
use std::ops::Range;

// Whether region x is marked as an exterior.
fn is_exterior(marks: &[u16], x: u32) -> bool
    requires { (1 ≤ x) × (x ≤ length marks.now) }
    ensures { result ≡ leb 4 (entry_at marks.now x) }
{
    EXTERIOR <= marks[x as usize - 1]
}

// Whether region x is not anchored, and has exactly one incident.
fn is_leaf(marks: &[u16], x: u32) -> bool
    requires { (1 ≤ x) × (x ≤ length marks.now) }
    ensures { result ≡ eqb (entry_at marks.now x % 4) 2 }
{
    marks[x as usize - 1] % EXTERIOR == SINGLE
}

// Marks region x as an exterior.
fn mark_exterior(marks: &mut [u16], x: u32)
    requires { (1 ≤ x) × (x ≤ length marks.old) }
    ensures marks { marks.new ≡ set marks.old (x - 1) (entry_at marks.old x % 4 + 4) }
    ensures marks_length { length marks.new ≡ length marks.old }
{
    let mark = &mut marks[x as usize - 1];
    *mark = *mark % EXTERIOR + EXTERIOR;
}

fn clear_exterior(marks: &mut [u16], x: u32)
    requires { (1 ≤ x) × (x ≤ length marks.old) }
    ensures marks { marks.new ≡ set marks.old (x - 1) (entry_at marks.old x % 4) }
    ensures marks_length { length marks.new ≡ length marks.old }
{
    marks[x as usize - 1] %= EXTERIOR;
}

// Marks the other region of each row that has exactly one region named r. Whether no row has two.
fn mark_exteriors(
    names: &[u32],
    marks: &mut [u16],
    pairs: &[u32],
    rows: Range<usize>,
    r: u32,
) -> bool
    requires { Reachable pairs.now rows.start rows.end names.now marks.old }
    ensures marked { (C : Context) (rs : List ℕ) →
        Walkable pairs.now rows.start rows.end C.regions →
        Inside C r rs names.now →
        Marked C (λ y. false) marks.old →
        Exteriored C rs (pairs_between pairs.now rows.start rows.end) marks.old marks.new result }
    ensures marks_length { length marks.new ≡ length marks.old }
{
    let mut fit = true;
    for k in rows {
        let Pair { lo, hi } = row_at(pairs, k);
        match (is_named(names, lo, r), is_named(names, hi, r)) {
            (true, true) => fit = false,
            (true, false) => mark_exterior(marks, hi),
            (false, true) => mark_exterior(marks, lo),
            (false, false) => {}
        }
    }
    fit
}

// Clears the marks of all exteriors of the rows.
fn clear_exteriors(marks: &mut [u16], pairs: &[u32], rows: Range<usize>)
    requires { Walkable pairs.now rows.start rows.end (length marks.old) }
    ensures cleared { (C : Context) (rs : List ℕ) →
        Walkable pairs.now rows.start rows.end C.regions →
        Marked C (λ y. member y (exteriors rs (pairs_between pairs.now rows.start rows.end))) marks.old →
        Cleared C marks.old marks.new }
    ensures marks_length { length marks.new ≡ length marks.old }
{
    for k in rows {
        let pair = row_at(pairs, k);
        clear_exterior(marks, pair.lo);
        clear_exterior(marks, pair.hi);
    }
}

// Whether each row has exactly one region named r.
fn rows_split(names: &[u32], pairs: &[u32], mut rows: Range<usize>, r: u32) -> bool
    requires { Walkable pairs.now rows.start rows.end (length names.now) }
    ensures { (C : Context) (rs : List ℕ) →
        Walkable pairs.now rows.start rows.end C.regions →
        Inside C r rs names.now →
        result ≡ all (λ p. eqb (inside_count rs p) 1) (pairs_between pairs.now rows.start rows.end) }
{
    rows.all(|k| {
        let pair = row_at(pairs, k);
        is_named(names, pair.lo, r) != is_named(names, pair.hi, r)
    })
}

// A row with no region named r names one exterior and one leaf, which gets the name. Whether it does.
fn expand_row(names: &mut [u32], marks: &[u16], pair: Pair, r: u32) -> bool
    requires lo_named { (1 ≤ pair.lo) × ((pair.lo ≤ length names.old) × (pair.lo ≤ length marks.now)) }
    requires hi_named { (1 ≤ pair.hi) × ((pair.hi ≤ length names.old) × (pair.hi ≤ length marks.now)) }
    ensures expanded { (C : Context) (i : ℕ) (rs es : List ℕ) (v : Bool) →
        RowOf C i pair.lo pair.hi →
        Inside C r rs names.old →
        Marked C (λ y. member y es) marks.now →
        Held C i r (expand_pair C i es (from rs v) (pair_form pair)) v names.old names.new result }
    ensures names_length { length names.new ≡ length names.old }
{
    if is_named(names, pair.lo, r) | is_named(names, pair.hi, r) {
        return true;
    }
    let a = is_exterior(marks, pair.lo);
    let b = is_exterior(marks, pair.hi);
    if a == b {
        return false;
    }
    let leaf = if a { pair.hi } else { pair.lo };
    if !is_leaf(marks, leaf) {
        return false;
    }
    set_name(names, leaf, r);
    true
}

// The leaves beyond the rows, row by row. Whether each row has a region named r by then, or names a leaf.
fn expand_rows(names: &mut [u32], marks: &[u16], pairs: &[u32], rows: Range<usize>, r: u32) -> bool
    requires { Reachable pairs.now rows.start rows.end names.old marks.now }
    ensures expanded { (C : Context) (i : ℕ) (rs es : List ℕ) (v : Bool) →
        Ported C pairs.now rows.start rows.end i →
        Inside C r rs names.old →
        Marked C (λ y. member y es) marks.now →
        Held C i r (expand_pairs C i es (from rs v) (pairs_between pairs.now rows.start rows.end)) v names.old names.new result }
    ensures names_length { length names.new ≡ length names.old }
{
    let mut fit = true;
    for k in rows {
        fit &= expand_row(names, marks, row_at(pairs, k), r);
    }
    fit
}

// The leaves beyond a port, whose rows these are. Whether the port is valid: no row has two regions named r before, and each has exactly one after.
// Kept: `names` and `marks` apart, for each of the four walks that it makes writes one of the two at most, as its parameters say. Of a struct of both each walk
// would promise besides that the other list is as it was, and that the struct holds the same two lists at exit.
pub fn expand_port(
    names: &mut [u32],
    marks: &mut [u16],
    pairs: &[u32],
    rows: Range<usize>,
    r: u32,
) -> bool
    requires { Reachable pairs.now rows.start rows.end names.old marks.old }
    ensures expanded { (C : Context) (i : ℕ) (rs : List ℕ) (v : Bool) →
        Ported C pairs.now rows.start rows.end i →
        Inside C r rs names.old →
        Marked C (λ y. false) marks.old →
        Walked C i r rs v names.old names.new marks.old marks.new result }
    ensures lengths { (length names.new ≡ length names.old) × (length marks.new ≡ length marks.old) }
{
    let Range { start, end } = rows;
    let before = mark_exteriors(names, marks, pairs, start..end, r);
    let grown = expand_rows(names, marks, pairs, start..end, r);
    let after = rows_split(names, pairs, start..end, r);
    clear_exteriors(marks, pairs, start..end);
    before & grown & after
}
