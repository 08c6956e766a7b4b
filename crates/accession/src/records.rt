// An accession record of a list by its place, and how many records a list has.
ghost use Rattle.std.specs.Prelude.{◌≡◌, ◌<◌};
ghost use Rattle.catalogue.specs.Accession.{accession_at, accession_count};
ghost use Rattle.accession.specs.Contract.{accession_as};

use catalogue::sizes::NUMBERS_PER_ACCESSION;

// "own number, map number, day, and the number superseded or 0"
#[derive(Clone, Copy)]
pub struct Accession {
    pub own: u64,
    pub on_map: u64,
    pub day: u64,
    pub superseded: u64,
}

pub fn record_count(records: &[u64]) -> usize
    ensures { result ≡ accession_count records.now }
{
    records.len() / NUMBERS_PER_ACCESSION
}

pub fn accession_at(records: &[u64], i: usize) -> Accession
    requires { i < accession_count records.now }
    ensures { accession_as result ≡ accession_at records.now i }
{
    let (records, _) = records.as_chunks::<NUMBERS_PER_ACCESSION>();
    let [own, on_map, day, superseded] = records[i];
    Accession {
        own,
        on_map,
        day,
        superseded,
    }
}
