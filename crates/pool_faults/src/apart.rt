// Terms of one map that have no day in common, told in n log n steps: the terms' positions are sorted by map and first day, and then it is enough to compare
// neighbours. What the positions are sorted by is a hint, of which nothing is proved: neighbours in a wrong order are found as those that overlap are.
ghost use Rattle.std.specs.Prelude.{◌≡◌, true, false, ◌+◌, ◌≤◌, ◌<◌, length};
ghost use Rattle.catalogue.specs.Terms.{term_count};
ghost use Rattle.pool_terms.specs.Contract.{term_as};
ghost use Rattle.pool_faults.specs.Apart.{IsBefore, position_in, Positions, SamePositions, Following, AllApart, Keys, Keyed, Between, ApartBetween, ApartTo};

use catalogue::sizes::NUMBERS_PER_TERM;
use number_sort::sort_numbers;
use pool_terms::terms::{Term, term_at};

// A key has the place of the term's map among the sorted maps, its first day and its position, which has the lower half.
const POSITIONS: u64 = 1 << 32;

const DAY_NUMBERS: u64 = 1 << 16;

const LAST_MAP: u64 = u64::MAX;

// How many terms are sorted at once. A map has at most 36,525 terms that are not empty and do not overlap. A short list has small tables, which are cleared
// sooner.
const FEW_TERMS: usize = 1024;

const MANY_TERMS: usize = 40_960;

// There was no room for the term at this position.
#[derive(Clone, Copy)]
pub struct NoRoom {
    pub at: usize,
}

// The maps whose numbers are from `low` to `high`.
#[derive(Clone, Copy)]
struct Part {
    low: u64,
    high: u64,
}

impl Part {
    fn has(self, map: u64) -> bool
        ensures { result ≡ false → Between self.low self.high map → ⊥ }
    {
        (self.low..=self.high).contains(&map)
    }

    // Its lower half.
    fn lower_half(self) -> Part
        requires { self.low < self.high }
        ensures { (result.low ≡ self.low) × (self.low ≤ result.high) × (result.high < self.high) }
    {
        let high = self.low + (self.high - self.low) / 2;
        Part {
            low: self.low,
            high,
        }
    }

    // The next maps, twice as many as these if there are as many.
    fn next(self) -> Part
        requires { (self.low ≤ self.high) × (self.high < 18446744073709551615) }
        ensures { (result.low ≡ self.high + 1) × (result.low ≤ result.high) × (result.high ≤ 18446744073709551615) }
    {
        let low = self.high + 1;
        let twice = (low - self.low).saturating_mul(2);
        Part {
            low,
            high: low.saturating_add(twice - 1),
        }
    }
}

// Whether a term is of a lower map than another, or of the same and over when the other begins.
fn precedes(first: Term, second: Term) -> bool
    ensures { result ≡ true → IsBefore (term_as first) (term_as second) }
{
    if first.on_map != second.on_map {
        return first.on_map < second.on_map;
    }
    match (first.days(), second.days()) {
        (Some(earlier), Some(later)) => !earlier.is_empty() && earlier.to <= later.from,
        _ => false,
    }
}

fn position_in(key: u64) -> usize
    ensures { result ≡ position_in key }
{
    (key % POSITIONS) as usize
}

// The least later position of two neighbours of which the first does not precede the second; the count of terms where there are none.
fn least_astray(terms: &[u64], keys: &[u64]) -> usize
    requires { Positions keys.now (term_count terms.now) }
    ensures { (result ≤ term_count terms.now) × (result ≡ term_count terms.now → Following terms.now keys.now (length keys.now)) }
{
    let mut found = terms.len() / NUMBERS_PER_TERM;
    for pair in keys.windows(2) {
        let (i, j) = (position_in(pair[0]), position_in(pair[1]));
        if !precedes(term_at(terms, i), term_at(terms, j)) {
            found = found.min(i.max(j));
        }
    }
    found
}

// The same of keys in any order, which are sorted.
fn least_doubtful(terms: &[u64], keys: &mut [u64]) -> usize
    requires { Positions keys.old (term_count terms.now) }
    ensures { (result ≤ term_count terms.now) × (result ≡ term_count terms.now → AllApart terms.now keys.old) }
{
    sort_numbers(&mut *keys);
    least_astray(terms, keys)
}

// Takes the terms whose maps are in the part: the map of each, and its position as a key. Gives how many are taken.
// Kept: maps and keys go as two lists. A struct of two lent slices would be made anew where both are cut to the count, and each contract would say of its
// fields what it says here; one of two arrays would make their size a const parameter of all these functions.
fn take_terms(
    terms: &[u64],
    part: Part,
    maps: &mut [u64],
    keys: &mut [u64],
) -> Result<usize, NoRoom>
    requires { (term_count terms.now ≤ 4294967296) × (length maps.old ≡ length keys.old) }
    ensures { Keyed terms.now (term_count terms.now) part.low part.high keys.new result }
{
    let mut taken = 0;
    // Kept: the position is what is taken, and of the term only its map; chunks with `enumerate` and `Term::read` would say the same in a line more.
    for i in 0..terms.len() / NUMBERS_PER_TERM {
        if taken == keys.len() {
            return Err(NoRoom { at: i });
        }
        let map = term_at(terms, i).on_map;
        if part.has(map) {
            maps[taken] = map;
            keys[taken] = i as u64;
            taken += 1;
        }
    }
    Ok(taken)
}

// The place of a map among these, which are sorted.
fn place_of(maps: &[u64], map: u64) -> u64
    ensures { result ≤ length maps.now }
{
    maps.partition_point(|&m| m < map) as u64
}

// The key of the term at position i.
fn key_of(term: Term, i: usize, maps: &[u64]) -> u64
    requires { (i < 4294967296) × (length maps.now < 65536) }
    ensures { position_in result ≡ i }
{
    let place = place_of(maps, term.on_map);
    let first = term.days().map_or(0, |days| days.from);
    (place * DAY_NUMBERS + first % DAY_NUMBERS) * POSITIONS + i as u64
}

// Puts the places of the maps and the first days in front of the positions.
fn complete_keys(terms: &[u64], maps: &[u64], keys: &mut [u64])
    requires { Positions keys.old (term_count terms.now) × (length maps.now < 65536) }
    ensures { SamePositions keys.old keys.new }
{
    for key in keys.iter_mut() {
        let i = position_in(*key);
        *key = key_of(term_at(terms, i), i, maps);
    }
}

// A position up to which nothing is known of the terms of the part's maps, which are these; the count of terms where no two of one map overlap.
fn doubt_between(terms: &[u64], part: Part, maps: &mut [u64], keys: &mut [u64]) -> usize
    requires sizes { length maps.old < 65536 }
    requires keys { Keys terms.now (term_count terms.now) part.low part.high keys.old (length keys.old) }
    ensures { (result ≤ term_count terms.now) × (result ≡ term_count terms.now → ApartBetween terms.now part.low part.high (term_count terms.now)) }
{
    sort_numbers(&mut *maps);
    complete_keys(terms, maps, &mut *keys);
    least_doubtful(terms, keys)
}

// The same of the terms of all maps. They are taken in parts, each of as many maps as there is room for the terms of.
fn doubt_of_all(terms: &[u64], maps: &mut [u64], keys: &mut [u64]) -> usize
    requires sizes { term_count terms.now ≤ 4294967296 }
    requires tables { (length maps.old < 65536) × (length maps.old ≡ length keys.old) }
    ensures { (result ≤ term_count terms.now) × (result ≡ term_count terms.now → ApartTo terms.now (term_count terms.now)) }
{
    let mut doubt = terms.len() / NUMBERS_PER_TERM;
    let mut part = Part {
        low: 0,
        high: LAST_MAP,
    };
    // Kept: where a part starts and ends depends on what the last one had room for; `iter::from_fn` would hold the same state and be no plainer.
    loop {
        match take_terms(terms, part, &mut *maps, &mut *keys) {
            Err(no_room) => {
                if part.low == part.high {
                    return no_room.at;
                }
                part = part.lower_half();
            }
            Ok(count) => {
                let found = doubt_between(terms, part, &mut maps[..count], &mut keys[..count]);
                doubt = doubt.min(found);
                if part.high == LAST_MAP {
                    return doubt;
                }
                part = part.next();
            }
        }
    }
}

// How many of the first terms do not overlap, with tables to work in.
fn apart_terms_by(terms: &[u64], maps: &mut [u64], keys: &mut [u64]) -> usize
    requires sizes { term_count terms.now ≤ 4294967296 }
    requires tables { (length maps.old < 65536) × (length maps.old ≡ length keys.old) }
    ensures { (result ≤ term_count terms.now) × ApartTo terms.now result }
{
    let mut apart = 0;
    let mut high = terms.len() / NUMBERS_PER_TERM;
    let mut whole = true;
    // All terms are asked about and half of those that are left in turn.
    // Kept: how many are asked about next depends on what was found of the last; `iter::from_fn` would hold the same state and be no plainer.
    while apart < high {
        let part = if whole {
            high
        } else {
            high - (high - apart) / 2
        };
        let first = &terms[..NUMBERS_PER_TERM * part];
        let doubt = doubt_of_all(first, &mut *maps, &mut *keys);
        whole = !whole;
        if doubt < part {
            high = doubt;
        } else {
            apart = part;
        }
    }
    apart
}

// Never put into its caller, as the check of records is not (`first_broken_with` of `accession`): each has its arrays on the stack alone.
#[inline(never)]
fn apart_terms_with<const TERMS: usize>(terms: &[u64]) -> usize
    requires { (term_count terms.now ≤ 4294967296) × (TERMS < 65536) }
    ensures { (result ≤ term_count terms.now) × ApartTo terms.now result }
{
    let mut maps = [0u64; TERMS];
    let mut keys = [0u64; TERMS];
    apart_terms_by(terms, &mut maps, &mut keys)
}

// How many of the first terms do not overlap another of them: up to the first that overlaps an earlier one, if they are sound and less than 2^32.
pub fn apart_terms(terms: &[u64]) -> usize
    ensures { (result ≤ term_count terms.now) × ApartTo terms.now result }
{
    let count = terms.len() / NUMBERS_PER_TERM;
    if count <= FEW_TERMS {
        return apart_terms_with::<FEW_TERMS>(terms);
    }
    let most = NUMBERS_PER_TERM * count.min(POSITIONS as usize);
    apart_terms_with::<MANY_TERMS>(&terms[..most])
}
