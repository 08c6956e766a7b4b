// The records that entries show: the records are gone through once, in their order, and each one of the day or earlier is shown in its map's entry, over what
// stood there.
ghost use Rattle.std.specs.Prelude.{◌+◌, ◌*◌, ◌≤◌, length, IfSome};
ghost use Rattle.catalogue.specs.Pool.{numbers_per_entry};
ghost use Rattle.pool_entries.specs.Steps.{record_in, Found, Shown, RecordsShown};

use catalogue::sizes::{NUMBERS_PER_ACCESSION, NUMBERS_PER_ENTRY};

// Which entry is the map's, if one is.
fn place_of(entries: &[u64], map: u64) -> Option<usize>
    ensures { IfSome result (λ k. numbers_per_entry * (k + 1) ≤ length entries.now) × Found entries.now map result }
{
    let (entries, _) = entries.as_chunks::<NUMBERS_PER_ENTRY>();
    entries.binary_search_by_key(&map, |entry| entry[0]).ok()
}

// Shows a record in the entry of its map, if there is one.
fn show(entries: &mut [u64], accession: &[u64; NUMBERS_PER_ACCESSION])
    ensures { Shown entries.old (record_in accession.now) entries.new }
{
    let [own, map, day, superseded] = *accession;
    // Kept: std says nothing of what a slice holds once `as_chunks_mut` has lent its chunks, so that the entry is written by its place.
    if let Some(k) = place_of(entries, map) {
        let at = NUMBERS_PER_ENTRY * k;
        entries[at + 1] = own;
        entries[at + 2] = day;
        entries[at + 3] = superseded;
    }
}

// Shows each map's newest record of this day or earlier in so many entries at the front of a list, that show none; what lies behind them stays.
pub fn show_records(entries: &mut [u64], maps: usize, records: &[u64], day: u64)
    requires { numbers_per_entry * maps ≤ length entries.old }
    ensures { RecordsShown entries.old maps records.now day entries.new }
{
    let shown = &mut entries[..NUMBERS_PER_ENTRY * maps];
    let (records, _) = records.as_chunks::<NUMBERS_PER_ACCESSION>();
    for accession in records {
        if day < accession[2] {
            continue;
        }
        show(&mut *shown, accession);
    }
}
