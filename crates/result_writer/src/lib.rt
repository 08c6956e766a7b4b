// The writer of result sheets: what a run found as bytes in shortest form, or why it is not written. All is judged before a byte is written, so that a
// refusal leaves the lent list as it was.

#![tactic(auto)]

ghost use Rattle.std.specs.Prelude.{◌≡◌, ◌&&◌, ◌+◌, ◌-◌, ◌/◌, ◌%◌, ◌≤◌, ◌<◌, [], leb, eqb, length, map, get_or, Some};
ghost use Rattle.definitions.specs.Limits.{numbers_per_row};
ghost use Rattle.definitions.specs.Refusals.{unless};
ghost use Rattle.definitions.specs.Scan.{concat_map};
ghost use Rattle.definitions.specs.Sort.{list_lt};
ghost use Rattle.results.specs.Shortest.{shortest, list_bytes};
ghost use Rattle.results.specs.Result.{turns, labels_fault, ascent_fault, rules_fault};
ghost use Rattle.results.specs.ResultAnswers.{entries_in, placed, is_finished, result_bytes, Writes};
ghost use Rattle.byte_writer.specs.Contract.{HasRoom, Appends};
ghost use Rattle.refusals.specs.Answers.{answer_in, answer_of};
ghost use Rattle.result_writer.specs.Contract.{turn_of, key_in, spent, result_in, result_of};

use byte_writer::Writer;
use definitions::limits::{NUMBERS_PER_PAIR, NUMBERS_PER_ROW, TALLIES_PER_SPAN};
use put_shortest::{Entry, put_shortest};
use refusals::answers::Answer;
use refusals::{Cause, Refusal, ensure};
use sheet::RESULT_KIND;

// ---- the rules

// How many numbers are started once a label is met, if it is in turn.
pub fn after_label(regions: u64, started: u64, label: u64) -> Option<u64>
    ensures { result ≡ turn_of regions started label }
{
    if label <= started {
        return Some(started);
    }
    if label - started == 1 && label <= regions {
        return Some(label);
    }
    None
}

// Along the labels each new number is the next one, and the region count is reached.
fn in_turn(regions: u64, labels: &[u64]) -> bool
    ensures { labels_fault regions 0 (turns regions 0 (entries_in 1 labels.now)) ≡ unless result }
{
    let mut started: u64 = 0;
    for &label in labels {
        let Some(n) = after_label(regions, started, label) else {
            return false;
        };
        started = n;
    }
    started == regions
}

// The numbers of an entry in the order in which they are compared: behind the others the first ones, so many of them.
pub fn key<const N: usize>(numbers: [u64; N], last: usize) -> [u64; N]
    requires { last ≤ N }
    ensures { result ≡ key_in last numbers.entry }
{
    let mut key = numbers;
    key.rotate_left(last);
    key
}

// Entry i is above the one before it.
fn ascends<const N: usize>(entries: &[[u64; N]], last: usize, i: usize) -> bool
    requires { (1 ≤ i) × (i < length entries.now) × (last ≤ N) }
    ensures { result ≡ list_lt (key_in last (get_or entries.now (i - 1) [])) (key_in last (get_or entries.now i [])) }
{
    key(entries[i - 1], last) < key(entries[i], last)
}

// Entries of N numbers strictly ascend, by their keys.
fn entries_ascend<const N: usize>(numbers: &[u64], last: usize) -> bool
    requires { (1 ≤ N) × (last ≤ N) × (N ≤ numbers_per_row) }
    ensures { ascent_fault (key_in last) (entries_in N numbers.now) ≡ unless result }
{
    let (entries, _) = numbers.as_chunks::<N>();
    // Kept: in a function over N the closure of `all` would need a clause of its own that repeats all that `ascends` requires.
    for i in 1..entries.len() {
        if !ascends(entries, last, i) {
            return false;
        }
    }
    true
}

// A label is an entry of one number.
pub const LABEL_SIZE: usize = 1;

// ---- the room

// How many bytes a number takes: one for each seven bits.
fn group_count(n: u64) -> usize
    ensures { result ≡ length (shortest n) }
{
    // Most numbers of a sheet have one group, and are spared the logarithm.
    if n < 128 {
        return 1;
    }
    (n.ilog2() / 7) as usize + 1
}

// Takes the size of a number from the bytes of a lent list that are left, if there are so many. Sizes are taken from the room, since their sum may be beyond
// 64 bits.
pub fn spend_number(room: usize, n: u64) -> Option<usize>
    ensures { result ≡ spent (Some room) (length (shortest n)) }
{
    room.checked_sub(group_count(n))
}

// Takes the size of each of these numbers.
pub fn spend_numbers<T: Entry>(room: usize, numbers: &[T]) -> Option<usize>
    ensures { result ≡ spent (Some room) (length (concat_map shortest (map T.value numbers.now))) }
{
    let mut left = room;
    for &n in numbers {
        left = spend_number(left, n.value())?;
    }
    Some(left)
}

// Takes the size of a count of entries, each of `size` numbers, and of the numbers.
pub fn spend_list(room: usize, size: usize, numbers: &[u64]) -> Option<usize>
    requires { 1 ≤ size }
    ensures { result ≡ spent (Some room) (length (list_bytes size numbers.now)) }
{
    let left = spend_number(room, (numbers.len() / size) as u64)?;
    spend_numbers(left, numbers)
}

// ---- writing

// Writes these numbers.
// Put into its callers, as all that writes through a `Writer`: the place then stays in a register, and is not stored and read again for each byte.
#[inline(always)]
pub fn put_numbers<T: Entry>(w: &mut Writer, numbers: &[T])
    requires { HasRoom w.old (length (concat_map shortest (map T.value numbers.now))) }
    ensures { Appends w.old (concat_map shortest (map T.value numbers.now)) w.new }
{
    for &n in numbers {
        put_shortest(w, n.value());
    }
}

// Writes a count of entries, each of `size` numbers, and the numbers.
#[inline(always)]
pub fn put_list(w: &mut Writer, size: usize, numbers: &[u64])
    requires { (1 ≤ size) × HasRoom w.old (length (list_bytes size numbers.now)) }
    ensures { Appends w.old (list_bytes size numbers.now) w.new }
{
    put_shortest(w, (numbers.len() / size) as u64);
    put_numbers(w, numbers);
}

// ---- what a run found

// How many regions there are, the labels of the cells, the tallies of the spans, the pairs and the rows.
#[derive(Clone, Copy)]
struct RunResult<'a> {
    regions: u64,
    labels: &'a [u64],
    tallies: &'a [u64],
    pairs: &'a [u64],
    rows: &'a [u64],
}

impl RunResult<'_> {
    // Pairs and rows ascend, and the labels are in turn. A row has its number first, and is compared by its endpoints before that.
    fn keeps_rules(self) -> bool
        ensures { rules_fault (placed (result_of self.entry)) ≡ unless result }
    {
        in_turn(self.regions, self.labels)
            && entries_ascend::<NUMBERS_PER_PAIR>(self.pairs, 0)
            && entries_ascend::<NUMBERS_PER_ROW>(self.rows, 1)
    }

    // No last entry is unfinished.
    fn is_finished(self) -> bool
        ensures { result ≡ is_finished (result_of self.entry) }
    {
        self.tallies.len() % TALLIES_PER_SPAN == 0
            && self.pairs.len() % NUMBERS_PER_PAIR == 0
            && self.rows.len() % NUMBERS_PER_ROW == 0
    }

    // What is left of the room once the sheet is taken from it, if there is so much.
    fn spend(self, room: usize) -> Option<usize>
        ensures { result ≡ spent (Some room) (length (result_bytes (result_of self.entry))) }
    {
        let left = spend_number(room, RESULT_KIND)?;
        let left = spend_number(left, self.regions)?;
        let left = spend_list(left, LABEL_SIZE, self.labels)?;
        let left = spend_list(left, TALLIES_PER_SPAN, self.tallies)?;
        let left = spend_list(left, NUMBERS_PER_PAIR, self.pairs)?;
        spend_list(left, NUMBERS_PER_ROW, self.rows)
    }

    // A list of so many bytes has room for the sheet.
    fn fits(self, room: usize) -> bool
        ensures { result ≡ leb (length (result_bytes (result_of self.entry))) room }
    {
        self.spend(room).is_some()
    }

    // Writes the sheet.
    #[inline(always)]
    fn put(self, w: &mut Writer)
        requires { HasRoom w.old (length (result_bytes (result_of self))) }
        ensures { Appends w.old (result_bytes (result_of self.entry)) w.new }
    {
        put_shortest(w, RESULT_KIND);
        put_shortest(w, self.regions);
        put_list(w, LABEL_SIZE, self.labels);
        put_list(w, TALLIES_PER_SPAN, self.tallies);
        put_list(w, NUMBERS_PER_PAIR, self.pairs);
        put_list(w, NUMBERS_PER_ROW, self.rows);
    }

    // Judges it, and writes the sheet. Gives how many bytes it has.
    fn write(self, out: &mut [u8]) -> Result<usize, Refusal>
        ensures { Writes (result_of self.entry) out.old (answer_of result) out.new }
    {
        ensure(self.keeps_rules(), Cause::ResultSheet)?;
        ensure(self.is_finished(), Cause::Entries)?;
        ensure(self.fits(out.len()), Cause::Room)?;
        let mut writer = Writer { out, at: 0 };
        self.put(&mut writer);
        Ok(writer.at)
    }
}

// Writes what a run found as a sheet of kind 2. For other languages too: include/jenwyllt.h declares it as jenwyllt_write_result.
pub fn result_writer_write_result(
    regions: u64,
    labels: &[u64],
    tallies: &[u64],
    pairs: &[u64],
    rows: &[u64],
    out: &mut [u8],
) -> Answer
    ensures { Writes (result_in regions labels.now tallies.now pairs.now rows.now)
        out.old (answer_in result) out.new }
{
    let found = RunResult {
        regions,
        labels,
        tallies,
        pairs,
        rows,
    };
    Answer::from(found.write(out))
}
