// The maps of a day: counted, listed in the lent output by number, and spread to entries that show no record yet.
ghost use Rattle.std.specs.Prelude.{◌≡◌, [], ◌∷◌, ◌+◌, ◌*◌, ◌/◌, ◌≤◌, length, take};
ghost use Rattle.std.proofs.lemmas.List.Edits.{sets};
ghost use Rattle.definitions.specs.Lists.{overwrite};
ghost use Rattle.catalogue.specs.Pool.{maps_in, maps_of_day, numbers_per_entry};
ghost use Rattle.pool_entries.specs.Steps.{blank};

use catalogue::sizes::{NUMBERS_PER_ENTRY, NUMBERS_PER_TERM};
use number_sort::sort_numbers;
use pool_terms::terms::Term;

pub fn count_maps(terms: &[u64], day: u64) -> usize
    ensures { result ≡ length (maps_in terms.now day) }
{
    let (terms, _) = terms.as_chunks::<NUMBERS_PER_TERM>();
    terms
        .iter()
        .filter(|numbers| Term::read(numbers).has_day(day))
        .count()
}

// Puts the maps of the terms that have the day in front, in the order of the terms, and gives how many there are.
fn put_maps(terms: &[u64], day: u64, output: &mut [u64]) -> usize
    requires { length (maps_in terms.now day) ≤ length output.old }
    ensures output { output.new ≡ overwrite (maps_in terms.now day) output.old }
    ensures count { result ≡ length (maps_in terms.now day) }
{
    let (terms, _) = terms.as_chunks::<NUMBERS_PER_TERM>();
    let mut maps = 0;
    for numbers in terms {
        let term = Term::read(numbers);
        if term.has_day(day) {
            output[maps] = term.on_map;
            maps += 1;
        }
    }
    maps
}

// Writes entry k, which shows no record.
fn put_entry(entries: &mut [u64], k: usize, map: u64)
    requires { numbers_per_entry * (k + 1) ≤ length entries.old }
    ensures { entries.new ≡ sets entries.old (numbers_per_entry * k) (map ∷ 0 ∷ 0 ∷ 0 ∷ []) }
{
    let at = NUMBERS_PER_ENTRY * k;
    entries[at..at + NUMBERS_PER_ENTRY].copy_from_slice(&[map, 0, 0, 0]);
}

// Spreads the maps at the front to entries, from the last on, so that no map is overwritten before it is read.
fn spread_maps(entries: &mut [u64])
    ensures { entries.new ≡ overwrite (blank (take (length entries.old / numbers_per_entry) entries.old)) entries.old }
{
    // Kept: each map is read from the list that its entry is written to, so that no iterator can lend both.
    for k in (0..entries.len() / NUMBERS_PER_ENTRY).rev() {
        let map = entries[k];
        put_entry(&mut *entries, k, map);
    }
}

// Writes the entries of the day's maps, by number, to the front of a list; they show no record yet, and what lies behind them stays.
pub fn put_entries(terms: &[u64], day: u64, entries: &mut [u64])
    requires { numbers_per_entry * length (maps_in terms.now day) ≤ length entries.old }
    ensures { entries.new ≡ overwrite (blank (maps_of_day terms.now day)) entries.old }
{
    let count = put_maps(terms, day, &mut *entries);
    sort_numbers(&mut entries[..count]);
    spread_maps(&mut entries[..NUMBERS_PER_ENTRY * count]);
}
