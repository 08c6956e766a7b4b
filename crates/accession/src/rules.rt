// The rules of accession records: 17. A record keeps them exactly when it goes on from the last record of its map before it (Chain.antt of `catalogue`).
// `&` joins tests here: no test has an effect, and without a branch each is its definition as it stands.
ghost use Rattle.std.specs.Prelude.{◌≡◌, ◌≤◌, ◌<◌, ◌^◌};
ghost use Rattle.catalogue.specs.Accession.{accession_count, own_ascends, accessions_fault};
ghost use Rattle.catalogue.specs.AccessionLaws.Chain.{follows};
ghost use Rattle.accession.specs.Contract.{one_more};

use crate::held::Held;
use crate::records::{accession_at, record_count};

// "Own numbers start above 0 and strictly ascend."
fn own_ascends(records: &[u64], i: usize) -> bool
    requires { i < accession_count records.now }
    ensures { result ≡ own_ascends records.now i }
{
    if i == 0 {
        return 0 < accession_at(records, 0).own;
    }
    accession_at(records, i - 1).own < accession_at(records, i).own
}

// Record i goes on from record k, or starts a chain, where there is none.
fn goes_on(records: &[u64], i: usize, last: Option<usize>) -> bool
    requires { (i < accession_count records.now) × (one_more last ≤ i) }
    ensures { result ≡ follows records.now i (one_more last) }
{
    let record = accession_at(records, i);
    match last {
        None => record.superseded == 0,
        Some(k) => {
            let before = accession_at(records, k);
            (before.day <= record.day) & (record.superseded == before.own)
        }
    }
}

// How many records a table holds, and its slots: a prime number, so that maps numbered in steps spread over them. A short list has a small table, which is
// cleared sooner.
const FEW_RECORDS: usize = 1024;

const FEW_SLOTS: usize = 509;

const MANY_RECORDS: usize = 131_072;

const MANY_SLOTS: usize = 32_749;

// Never put into its caller: its table, of up to 640 KiB, would stand on the stack beside the arrays of another check (`maps_of_day`).
#[inline(never)]
fn first_broken_with<const SLOTS: usize, const ROOM: usize>(records: &[u64]) -> Option<usize>
    requires { (0 < SLOTS) × (SLOTS < 2 ^ 32) × (ROOM < 2 ^ 32) }
    ensures { result ≡ accessions_fault records.now }
{
    let mut held = Held::<SLOTS, ROOM>::new();
    // Kept: each record is asked about by the table of those before it. A closure of `find` would ask and hold the record in one, and be no plainer.
    for i in 0..record_count(records) {
        let before = held.last_of_map(records, i);
        if !(own_ascends(records, i) & goes_on(records, i, before)) {
            return Some(i);
        }
        held.hold(records);
    }
    None
}

// The position of the first record that breaks a rule.
pub fn first_broken(records: &[u64]) -> Option<usize>
    ensures { result ≡ accessions_fault records.now }
{
    if record_count(records) <= FEW_RECORDS {
        first_broken_with::<FEW_SLOTS, FEW_RECORDS>(records)
    } else {
        first_broken_with::<MANY_SLOTS, MANY_RECORDS>(records)
    }
}
