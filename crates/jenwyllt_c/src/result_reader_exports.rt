// What `result_reader` exports to C.

ghost use Rattle.result_reader.specs.Contract.{Reads};

use result_reader::ResultAnswer;

// Reads a sheet of kind 2 into the lists.
#[unsafe(no_mangle)]
pub extern "C" fn jenwyllt_read_result(
    bytes: &[u8],
    labels: &mut [u64],
    tallies: &mut [u64],
    pairs: &mut [u64],
    rows: &mut [u64],
) -> ResultAnswer
    ensures { Reads bytes.now labels.old tallies.old pairs.old rows.old result
        labels.new tallies.new pairs.new rows.new }
{
    result_reader::result_reader_read_result(bytes, labels, tallies, pairs, rows)
}
