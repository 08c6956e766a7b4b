// The line of an own number: every record of its map, newest first.
ghost use Rattle.std.specs.Prelude.{◌≡◌, true, ◌≤◌, ◌*◌, length, None};
ghost use Rattle.definitions.specs.Lists.{overwrite};
ghost use Rattle.definitions.specs.Scan.{count_below};
ghost use Rattle.catalogue.specs.Accession.{numbers_per_accession, accession_count, accessions_fault, is_finished};
ghost use Rattle.catalogue.specs.Line.{flat_line, line_verdict, line_at_exit};
ghost use Rattle.catalogue.specs.AccessionLaws.MapLine.{is_of_map, map_line};
ghost use Rattle.refusals.specs.Answers.{answer_of};
ghost use Rattle.accession.specs.Contract.{Finds, room_verdict, room_exit};

use crate::rules::first_broken;
use catalogue::sizes::NUMBERS_PER_ACCESSION;
use refusals::{Cause, Refusal, ensure, no_fault};

// A record with an own number.
fn find_own(records: &[u64], own: u64) -> Option<&[u64; NUMBERS_PER_ACCESSION]>
    ensures { Finds records.now own result }
{
    let (records, _) = records.as_chunks::<NUMBERS_PER_ACCESSION>();
    records.iter().find(|record| record[0] == own)
}

fn count_of_map(records: &[u64], number: u64) -> usize
    ensures { result ≡ count_below (accession_count records.now) (is_of_map records.now number) }
{
    let (records, _) = records.as_chunks::<NUMBERS_PER_ACCESSION>();
    records.iter().filter(|record| record[1] == number).count()
}

// Every record of the map, newest first.
fn put_line(records: &[u64], number: u64, output: &mut [u64])
    requires { numbers_per_accession * count_below (accession_count records.now) (is_of_map records.now number) ≤ length output.old }
    ensures { output.new ≡ overwrite (flat_line (map_line records.now number)) output.old }
{
    let (records, _) = records.as_chunks::<NUMBERS_PER_ACCESSION>();
    let mut k = 0;
    for record in records.iter().rev() {
        let [_, on_map, _, _] = *record;
        if on_map == number {
            output[k..k + NUMBERS_PER_ACCESSION].copy_from_slice(record);
            k += NUMBERS_PER_ACCESSION;
        }
    }
}

// Every record of the map, or 10 where the output has no room for them. Gives how many there are.
fn report_map(records: &[u64], number: u64, output: &mut [u64]) -> Result<usize, Refusal>
    ensures answer { answer_of result ≡ room_verdict (map_line records.now number) (length output.old) }
    ensures left { output.new ≡ room_exit (answer_of result).number (map_line records.now number) output.old }
{
    let count = count_of_map(records, number);
    ensure(count <= output.len() / NUMBERS_PER_ACCESSION, Cause::Room)?;
    put_line(records, number, output);
    Ok(count)
}

// For records that keep the rules.
fn report_kept(records: &[u64], own: u64, output: &mut [u64]) -> Result<usize, Refusal>
    requires { (is_finished records.now ≡ true) × (accessions_fault records.now ≡ None) }
    ensures answer { answer_of result ≡ line_verdict records.now own (length output.old) }
    ensures left { output.new ≡ line_at_exit (answer_of result).number records.now own output.old }
{
    match find_own(records, own) {
        None => Ok(0),
        Some(&[_, on_map, _, _]) => report_map(records, on_map, output),
    }
}

// The whole line of an own number: 3 for a last entry unfinished, 17 at the first record that breaks a rule, 10 where the line does not fit. Gives how many
// records it has.
pub fn report_line(records: &[u64], own: u64, output: &mut [u64]) -> Result<usize, Refusal>
    ensures answer { answer_of result ≡ line_verdict records.now own (length output.old) }
    ensures left { output.new ≡ line_at_exit (answer_of result).number records.now own output.old }
{
    ensure(records.len() % NUMBERS_PER_ACCESSION == 0, Cause::Entries)?;
    no_fault(first_broken(records), Cause::Accession)?;
    report_kept(records, own, output)
}
