// For programs that replay stored calls: how a case is read, what lent lists hold before the call, and what is written of them after it. Lists of at most 4,096
// entries.

#![tactic(auto)]

ghost use Rattle.std.specs.Prelude.{◌≤◌, ◌<◌, ◌≡◌, length, take, min, IfOk, OnOk, IfSome, Some, drop, nat_le};
ghost use Rattle.replay_lists.specs.Contract.{held_at, HeldBefore, IsOther, Changed, Zeros};
ghost use Rattle.replay_lists.specs.Openings.{opening_of, next_opening, behind_case, behind_cases, RoomBefore, lent_of};

use areas::lists::PartitionLists;
use refusals::answers::Answer;
use std::io::{Read, Write};
use std::{array, io};
use streams::read_full;

// Reading ends after so many cases at the latest.
const CASES: u64 = 65536;

// A case lends lists of at most so many entries.
const ENTRIES_LENT: usize = 4096;

// ---- what a list held before the call

// Entry i: no number of an answer on maps of so few cells is one of these.
fn held_before(i: usize) -> u16
    ensures { result ≡ held_at i }
{
    60000 + (i % 5000) as u16
}

// Masks, numbers or wide numbers.
pub fn entries_before<T: From<u16>>() -> [T; ENTRIES_LENT]
    ensures { HeldBefore T.from_gives 4096 result }
{
    array::from_fn(|i| T::from(held_before(i)))
}

// The same of a list that is there already.
fn hold_before<T: Copy + From<u16>>(list: &mut [T; ENTRIES_LENT])
    ensures { HeldBefore T.from_gives 4096 list.new }
{
    for (i, entry) in list.iter_mut().enumerate() {
        *entry = T::from(held_before(i));
    }
}

// Entry i of a list is not as it was.
fn is_changed<T: Copy + Into<u64>>(list: &[T], i: usize) -> bool
    requires { i < length list.now }
    ensures { IsOther T.converts list.now i result }
{
    list[i].into() != u64::from(held_before(i))
}

// How many entries there are up to the last one that is not as it was.
fn changed<T: Copy + Into<u64>>(list: &[T]) -> usize
    ensures { Changed T.converts list.now result }
{
    (0..list.len())
        .rfind(|&last| is_changed(list, last))
        .map_or(0, |last| last + 1)
}

// How many entries in front are zero.
fn zeros<T: Copy + Into<u64>>(list: &[T]) -> usize
    ensures { Zeros T.converts list.now result }
{
    list.iter()
        .position(|&x| x.into() != 0)
        .unwrap_or(list.len())
}

// ---- writing. What the system makes of it no contract can say: how many entries of a list were written is answered, so that a contract can say how many that
// is to be.

// How many entries of each list were written.
#[derive(Clone, Copy)]
pub struct Written {
    pub labels: usize,
    pub tallies: usize,
    pub pairs: usize,
}

// The first entries of a list, as many as a case can lend.
fn lent<T>(list: &[T]) -> &[T]
    ensures { result.now ≡ take 4096 list.now }
{
    &list[..list.len().min(ENTRIES_LENT)]
}

// Writes a list's entries as far as they changed, and how many behind them are as they were. Answers how many entries it wrote.
pub fn write_numbers<T: Copy + Into<u64>, W: Write>(
    output: &mut W,
    word: &[u8],
    list: &[T],
) -> io::Result<usize>
    ensures { IfOk result (λ n. Changed T.converts list.now n) }
{
    let n = changed(list);
    output.write_all(word)?;
    write!(output, "{n}")?;
    for &x in &list[..n] {
        let number: u64 = x.into();
        write!(output, " {number}")?;
    }
    writeln!(output, " kept {}", list.len() - n)?;
    Ok(n)
}

// Of a list that is cleared.
fn write_zeros<T: Copy + Into<u64>, W: Write>(
    output: &mut W,
    word: &[u8],
    list: &[T],
) -> io::Result<()> {
    let n = changed(list);
    output.write_all(word)?;
    writeln!(output, "{n} zeros {} kept {}", zeros(list), list.len() - n)
}

// Writes an answer and the lists that a partition fills and clears. Answers how many entries it wrote of labels, tallies and pairs.
pub fn write_partition<W: Write>(
    output: &mut W,
    answer: Answer,
    lists: &PartitionLists,
) -> io::Result<Written>
    ensures labels_changed { IfOk result (λ w. Changed (λ x y. y ≡ x) (take 4096 lists.now.labels.now) w.labels) }
    ensures tallies_changed { IfOk result (λ w. Changed (λ x y. y ≡ x) (take 4096 lists.now.tallies.now) w.tallies) }
    ensures pairs_changed { IfOk result (λ w. Changed (λ x y. y ≡ x) (take 4096 lists.now.pairs.now) w.pairs) }
{
    let Answer { number, value } = answer;
    writeln!(output, "answer {number} {value}")?;
    let labels = write_numbers(output, b"labels ", lent(lists.labels))?;
    let tallies = write_numbers(output, b"tallies ", lent(lists.tallies))?;
    let pairs = write_numbers(output, b"pairs ", lent(lists.pairs))?;
    write_zeros(output, b"masks ", lent(lists.masks))?;
    write_zeros(output, b"queue ", lent(lists.queue))?;
    Ok(Written {
        labels,
        tallies,
        pairs,
    })
}

// ---- what a case begins with

// Fifteen numbers of two bytes each, the lesser byte first, stand before a case's sheet.
const OPENING: usize = 30;

// These numbers, in this order.
#[derive(Clone, Copy)]
pub struct Opening {
    pub pass: u16,
    pub width: u16,
    pub height: u16,
    // How many cells, and how many numbers of spans, boundaries and anchors are passed on.
    pub cells: u16,
    pub spans: u16,
    pub boundaries: u16,
    pub anchors: u16,
    // The lengths of the lists that are lent.
    pub labels: u16,
    pub masks: u16,
    pub queue: u16,
    pub tallies: u16,
    pub pairs: u16,
    pub records: u16,
    pub output: u16,
    // How many bytes the sheet has.
    sheet: u16,
}

// A number of an opening as the length of a list; the list has no more than `most` entries.
pub fn length_within(asked: u16, most: usize) -> usize
    ensures bound { result ≤ most }
    ensures least { result ≡ min asked most }
{
    usize::from(asked).min(most)
}

impl From<[u8; OPENING]> for Opening {
    ghost from_gives = { λ bytes opening. opening ≡ opening_of bytes };

    fn from(bytes: [u8; OPENING]) -> Opening {
        let (numbers, _) = bytes.as_chunks::<2>();
        let [
            pass,
            width,
            height,
            cells,
            spans,
            boundaries,
            anchors,
            labels,
            masks,
            queue,
            tallies,
            pairs,
            records,
            output,
            sheet,
        ]: [u16; 15] = array::from_fn(|k| u16::from_le_bytes(numbers[k]));
        Opening {
            pass,
            width,
            height,
            cells,
            spans,
            boundaries,
            anchors,
            labels,
            masks,
            queue,
            tallies,
            pairs,
            records,
            output,
            sheet,
        }
    }
}

impl Opening {
    // Reads what the next case begins with; none where the input ends before. The clauses speak of an input whose bytes are known, as those of a slice are.
    pub fn read<R: Read>(input: &mut R) -> io::Result<Option<Opening>>
        ensures next { IfOk result (λ o. IfSome (R.remaining input.old) (λ xs. o ≡ next_opening xs)) }
        ensures taken { OnOk result (IfSome (R.remaining input.old) (λ xs. R.remaining input.new ≡ Some (drop 30 xs))) }
    {
        let mut bytes = [0u8; OPENING];
        if read_full(input, &mut bytes)? < OPENING {
            return Ok(None);
        }
        Ok(Some(Opening::from(bytes)))
    }

    // Reads the sheet behind it, and answers how many bytes there were: of an input whose bytes are known, as many as the opening says or as are left.
    pub fn read_sheet<R: Read>(&self, input: &mut R, buffer: &mut [u8]) -> io::Result<usize>
        requires { 65536 ≤ length buffer.old }
        ensures within { IfOk result (λ n. n ≤ length buffer.new) }
        ensures given { IfOk result (λ n. IfSome (R.remaining input.old) (λ xs. take n buffer.new ≡ take self.now.sheet xs)) }
        ensures taken { OnOk result (IfSome (R.remaining input.old) (λ xs. R.remaining input.new ≡ Some (drop self.now.sheet xs))) }
    {
        read_full(input, &mut buffer[..usize::from(self.sheet)])
    }
}

// ---- what a case lends

// The lists that a partition fills, each with as many entries as a case can lend.
#[derive(Clone, Copy)]
pub struct LentRoom {
    labels: [u32; ENTRIES_LENT],
    masks: [u16; ENTRIES_LENT],
    queue: [u32; ENTRIES_LENT],
    tallies: [u32; ENTRIES_LENT],
    pairs: [u32; ENTRIES_LENT],
}

impl LentRoom {
    pub fn new() -> LentRoom
        ensures { RoomBefore result }
    {
        // Kept: filled where they stand. `array::from_fn`, by which `entries_before` makes a list, clears each of these four times and copies it, and with it a
        // replay of the partition takes a third more time.
        let mut room = LentRoom {
            labels: [0; ENTRIES_LENT],
            masks: [0; ENTRIES_LENT],
            queue: [0; ENTRIES_LENT],
            tallies: [0; ENTRIES_LENT],
            pairs: [0; ENTRIES_LENT],
        };
        hold_before(&mut room.labels);
        hold_before(&mut room.masks);
        hold_before(&mut room.queue);
        hold_before(&mut room.tallies);
        hold_before(&mut room.pairs);
        room
    }

    // As much of them as the opening says.
    pub fn lists(&mut self, opening: &Opening) -> PartitionLists
        ensures labels { result.labels.now ≡ lent_of opening.now.labels self.old.labels }
        ensures masks { result.masks.now ≡ lent_of opening.now.masks self.old.masks }
        ensures queue { result.queue.now ≡ lent_of opening.now.queue self.old.queue }
        ensures tallies { result.tallies.now ≡ lent_of opening.now.tallies self.old.tallies }
        ensures pairs { result.pairs.now ≡ lent_of opening.now.pairs self.old.pairs }
    {
        let LentRoom {
            labels,
            masks,
            queue,
            tallies,
            pairs,
        } = self;
        PartitionLists {
            labels: &mut labels[..length_within(opening.labels, ENTRIES_LENT)],
            masks: &mut masks[..length_within(opening.masks, ENTRIES_LENT)],
            queue: &mut queue[..length_within(opening.queue, ENTRIES_LENT)],
            tallies: &mut tallies[..length_within(opening.tallies, ENTRIES_LENT)],
            pairs: &mut pairs[..length_within(opening.pairs, ENTRIES_LENT)],
        }
    }
}

// ---- case after case

// Replays the next case; false where there is none.
fn replay_next<R: Read, W: Write, F: Fn(&mut W, &Opening, &[u8]) -> io::Result<()>>(
    input: &mut R,
    out: &mut W,
    buffer: &mut [u8],
    replay: F,
) -> io::Result<bool>
    requires room { 65536 ≤ length buffer.old }
    requires callable { F.IsAlwaysCallable replay }
    ensures more { IfOk result (λ b. IfSome (R.remaining input.old) (λ xs. b ≡ nat_le 30 (length xs))) }
    ensures taken { OnOk result (IfSome (R.remaining input.old) (λ xs. R.remaining input.new ≡ Some (behind_case xs))) }
{
    let Some(opening) = Opening::read(input)? else {
        return Ok(false);
    };
    let size = opening.read_sheet(input, buffer)?;
    replay(out, &opening, &buffer[0..size])?;
    Ok(true)
}

// Replays the cases, each as `replay` does it from its opening and the bytes of its sheet. Of an input whose bytes are known it takes all cases, or as many as
// the limit; what `replay` writes of them no contract says.
pub fn replay_cases<R: Read, W: Write, F: Fn(&mut W, &Opening, &[u8]) -> io::Result<()>>(
    input: &mut R,
    out: &mut W,
    replay: F,
) -> io::Result<()>
    requires { F.IsAlwaysCallable replay }
    ensures { OnOk result (IfSome (R.remaining input.old) (λ xs. R.remaining input.new ≡ Some (behind_cases 65536 xs))) }
{
    let mut buffer = [0u8; 65536];
    for _ in 0..CASES {
        if !replay_next(input, out, &mut buffer, &replay)? {
            return Ok(());
        }
    }
    Ok(())
}
