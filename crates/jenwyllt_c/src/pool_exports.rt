// What `pool` exports to C.

ghost use Rattle.std.specs.Prelude.{◌≡◌, length};
ghost use Rattle.catalogue.specs.Pool.{pool_verdict, pool_at_exit};
ghost use Rattle.pool_terms.specs.Contract.{date};
ghost use Rattle.refusals.specs.Answers.{answer_in};

use pool_terms::calendar::Date;
use refusals::answers::Answer;

#[unsafe(no_mangle)]
pub extern "C" fn jenwyllt_maps_of_day(
    terms: &[u64],
    records: &[u64],
    year: u64,
    month: u64,
    day: u64,
    output: &mut [u64],
) -> Answer
    ensures answer { answer_in result ≡ pool_verdict terms.now records.now (date year month day) (length output.old) }
    ensures output { output.new ≡ pool_at_exit result.number terms.now records.now
        (date year month day) output.old }
{
    pool::pool_maps_of_day(terms, records, Date { year, month, day }, output)
}
