// What `result_writer` exports to C.

ghost use Rattle.results.specs.ResultAnswers.{Writes};
ghost use Rattle.refusals.specs.Answers.{answer_in};
ghost use Rattle.result_writer.specs.Contract.{result_in};

use refusals::answers::Answer;

// Writes what a run found as a sheet of kind 2.
#[unsafe(no_mangle)]
pub extern "C" fn jenwyllt_write_result(
    regions: u64,
    labels: &[u64],
    tallies: &[u64],
    pairs: &[u64],
    rows: &[u64],
    out: &mut [u8],
) -> Answer
    ensures { Writes (result_in regions labels.now tallies.now pairs.now rows.now)
        out.old (answer_in result) out.new }
{
    result_writer::result_writer_write_result(regions, labels, tallies, pairs, rows, out)
}
