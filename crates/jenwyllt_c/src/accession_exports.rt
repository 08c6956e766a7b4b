// What `accession` exports to C.

ghost use Rattle.std.specs.Prelude.{◌≡◌, length};
ghost use Rattle.catalogue.specs.Line.{line_verdict, line_at_exit};
ghost use Rattle.refusals.specs.Answers.{answer_in};

use refusals::answers::Answer;

// "Report the whole line of an own number": 3 for a last entry unfinished, 17 at the first record that breaks a rule, 10 where the line does not fit.
#[unsafe(no_mangle)]
pub extern "C" fn jenwyllt_report_line(records: &[u64], own: u64, output: &mut [u64]) -> Answer
    ensures answer { answer_in result ≡ line_verdict records.now own (length output.old) }
    ensures left { output.new ≡ line_at_exit result.number records.now own output.old }
{
    accession::accession_report_line(records, own, output)
}
