// Accession records in one list: the first that breaks a rule, and the line of an own number. The definitions stand in `catalogue`.

#![tactic(auto)]

mod held;
pub mod line;
pub mod records;
pub mod rules;

ghost use Rattle.std.specs.Prelude.{◌≡◌, length};
ghost use Rattle.catalogue.specs.Line.{line_verdict, line_at_exit};
ghost use Rattle.refusals.specs.Answers.{answer_in};

use line::report_line;
use refusals::answers::Answer;

/// "Report the whole line of an own number": every record of its map, newest first. The value is the count of records in the line.
pub fn accession_report_line(records: &[u64], own: u64, output: &mut [u64]) -> Answer
    ensures answer { answer_in result ≡ line_verdict records.now own (length output.old) }
    ensures left { output.new ≡ line_at_exit result.number records.now own output.old }
{
    Answer::from(report_line(records, own, output))
}
