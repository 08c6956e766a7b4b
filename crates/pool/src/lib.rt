// The maps in the tournament pool on a day, each with the accession record that stood in the catalogue then.

#![tactic(auto)]

ghost use Rattle.std.specs.Prelude.{◌≡◌, length, None};
ghost use Rattle.catalogue.specs.Terms.{terms_refusal};
ghost use Rattle.catalogue.specs.Pool.{pool_verdict, pool_at_exit};
ghost use Rattle.refusals.specs.Refusals.{refusal_in};
ghost use Rattle.pool_terms.specs.Contract.{date_as};
ghost use Rattle.refusals.specs.Answers.{answer_in, answer_of};
ghost use Rattle.pool.specs.Contract.{lists_refusal, Listed};

use accession::rules::first_broken;
use catalogue::sizes::{NUMBERS_PER_ACCESSION, NUMBERS_PER_ENTRY, NUMBERS_PER_TERM};
use pool_entries::entries::show_records;
use pool_entries::maps::{count_maps, put_entries};
use pool_faults::faults::terms_fault;
use pool_terms::calendar::{Date, day_of};
use refusals::answers::Answer;
use refusals::{Cause, Refusal, ensure, no_fault};

// The checks 3, 17, 18 and 19.
fn check_lists(terms: &[u64], records: &[u64]) -> Result<(), Refusal>
    ensures { refusal_in result ≡ lists_refusal terms.now records.now }
{
    // `&` joins the tests: neither has an effect, and without a branch they are their definition as it stands.
    let finished = (terms.len() % NUMBERS_PER_TERM == 0)
        & (records.len() % NUMBERS_PER_ACCESSION == 0);
    ensure(finished, Cause::Entries)?;
    no_fault(first_broken(records), Cause::Accession)?;
    terms_fault(terms)
}

// Lists the maps of a day, if the output has room for them: 10.
fn list_day(terms: &[u64], records: &[u64], day: u64, output: &mut [u64]) -> Result<usize, Refusal>
    requires { terms_refusal terms.now ≡ None }
    ensures { Listed terms.now records.now day output.old result output.new }
{
    let maps = count_maps(terms, day);
    ensure(maps <= output.len() / NUMBERS_PER_ENTRY, Cause::Room)?;
    put_entries(terms, day, &mut *output);
    show_records(output, maps, records, day);
    Ok(maps)
}

// The maps of the day asked for, by number, each with its newest accession record of that day or earlier. Gives how many there are.
pub fn maps_of_day(
    terms: &[u64],
    records: &[u64],
    date: Date,
    output: &mut [u64],
) -> Result<usize, Refusal>
    ensures answer { answer_of result ≡ pool_verdict terms.now records.now (date_as date) (length output.old) }
    ensures output { output.new ≡ pool_at_exit (answer_of result).number terms.now records.now
        (date_as date) output.old }
{
    check_lists(terms, records)?;
    let day = day_of(date).ok_or(Refusal {
        cause: Cause::Date,
        place: terms.len() / NUMBERS_PER_TERM,
    })?;
    list_day(terms, records, day, &mut *output)
}

// The same, as C is answered.
pub fn pool_maps_of_day(terms: &[u64], records: &[u64], date: Date, output: &mut [u64]) -> Answer
    ensures answer { answer_in result ≡ pool_verdict terms.now records.now (date_as date) (length output.old) }
    ensures output { output.new ≡ pool_at_exit result.number terms.now records.now
        (date_as date) output.old }
{
    Answer::from(maps_of_day(terms, records, date, &mut *output))
}
