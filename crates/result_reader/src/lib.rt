// The reader of result sheets: what the bytes of a sheet of kind 2 hold, or why they are refused. One pass judges all of the bytes, and a breach of a rule is
// remembered while it goes on, since a 14 behind it comes first. The lists are filled once all four are known to have room, so that a refusal leaves them
// as they were. Counts are of entries, and none is multiplied before its list is known to have room.

#![tactic(auto)]

ghost use Rattle.std.specs.Prelude.{◌≡◌, [], ℕ, ◌*◌, ◌≤◌, length, drop, None, Ok, Err};
ghost use Rattle.definitions.specs.Limits.{tallies_per_span, numbers_per_pair, numbers_per_row};
ghost use Rattle.definitions.specs.Lists.{overwrite};
ghost use Rattle.definitions.specs.Refusals.{or_else};
ghost use Rattle.definitions.specs.SheetNumber.{number};
ghost use Rattle.definitions.specs.Sheet.{times};
ghost use Rattle.sheet.specs.Numbers.{read_of, items_at, Told};
ghost use Rattle.results.specs.Result.{labels_fault};
ghost use Rattle.result_writer.specs.Contract.{key_in};
ghost use Rattle.result_reader.specs.Walks.{turn_at, turns_from, Walks, ascent_of, ascent_from};
ghost use Rattle.result_reader.specs.Parts.{turns_fault, no_fault, key_fault, ListTold, OpeningTold, FrontTold, BackTold, ResultTold};
ghost use Rattle.result_reader.specs.Parts.{PlanHeld, PartHeld, part_numbers, room_in, Room};
ghost use Rattle.result_reader.specs.Lists.{Filled, SameLists};
ghost use Rattle.result_reader.specs.Contract.{answered, Reads};

use definitions::limits::{NUMBERS_PER_PAIR, NUMBERS_PER_ROW, TALLIES_PER_SPAN};
use refusals::{Cause, Refusal, ensure, no_fault};
use result_writer::{LABEL_SIZE, after_label, key};
use sheet::{Found, Part, RESULT_KIND, end_at, fill_numbers, judge, number_at};

// ---- labels

// How many numbers are started along the labels; or the place of the first label out of turn.
type Turned = Result<u64, usize>;

// One label more, at this place.
fn turn(regions: u64, state: Turned, label: u64, place: usize) -> Turned
    ensures { result ≡ turn_at regions state label place }
{
    after_label(regions, state?, label).ok_or(place)
}

// Walks `count` labels.
fn walk_labels(bytes: &[u8], at: usize, count: u64, regions: u64) -> Result<Found<Turned>, Refusal>
    requires { at ≤ length bytes.now }
    ensures { Walks (turns_from regions) 1 bytes.now (Ok 0) at count result }
{
    let mut next = at;
    let mut state: Turned = Ok(0);
    for _ in 0..count {
        let label = number_at(bytes, next)?;
        state = turn(regions, state, label.value, next);
        next = label.next;
    }
    Ok(Found { value: state, next })
}

// ---- pairs and rows

// The next N numbers.
fn numbers_at<const N: usize>(bytes: &[u8], at: usize) -> Result<Found<[u64; N]>, Refusal>
    requires { at ≤ length bytes.now }
    ensures { times N number at (drop at bytes.now) ≡ read_of bytes.now result }
{
    let mut value = [0u64; N];
    let mut next = at;
    for number in value.iter_mut() {
        let read = number_at(bytes, next)?;
        *number = read.value;
        next = read.next;
    }
    Ok(Found { value, next })
}

// The key of the last entry, if there is one yet, all in order; or the place of the first that is not above the one before it.
type Ascent<const N: usize> = Result<Option<[u64; N]>, usize>;

// One entry more, at this place.
fn climb<const N: usize>(state: Ascent<N>, key: [u64; N], place: usize) -> Ascent<N>
    ensures { result ≡ ascent_of state.entry key.entry place }
{
    let Some(before) = state? else {
        return Ok(Some(key));
    };
    if before < key {
        Ok(Some(key))
    } else {
        Err(place)
    }
}

// Walks `count` entries of N numbers, of which the first ones, so many of them, are compared last.
fn walk_keys<const N: usize>(
    bytes: &[u8],
    at: usize,
    count: u64,
    last: usize,
) -> Result<Found<Ascent<N>>, Refusal>
    requires { (at ≤ length bytes.now) × (last ≤ N) × (N ≤ numbers_per_row) }
    ensures { Walks (ascent_from (key_in last)) N bytes.now (Ok None) at count result }
{
    let mut next = at;
    let mut state: Ascent<N> = Ok(None);
    for _ in 0..count {
        let numbers = numbers_at::<N>(bytes, next)?;
        state = climb(state, key(numbers.value, last), next);
        next = numbers.next;
    }
    Ok(Found { value: state, next })
}

// ---- the lists

// How many regions there are, and where that stands.
#[derive(Clone, Copy)]
struct RegionCount {
    count: u64,
    place: usize,
}

// The first label that breaks the rule: labels in turn that do not reach the region count break it at its place.
fn turns_breach(state: Turned, regions: RegionCount) -> Option<usize>
    ensures { result ≡ labels_fault regions.count regions.place (turns_from regions.count state []) }
{
    match state {
        Ok(started) => (started != regions.count).then_some(regions.place),
        Err(first) => Some(first),
    }
}

// A list, and the first place that breaks its rule, if there is one.
#[derive(Clone, Copy)]
struct List {
    part: Part,
    breach: Option<usize>,
}

// The labels behind their count.
fn labels_list(bytes: &[u8], at: usize, regions: RegionCount) -> Result<Found<List>, Refusal>
    requires { at ≤ length bytes.now }
    ensures { ListTold (turns_fault regions.count regions.place) 1 bytes.now at result }
{
    let count = number_at(bytes, at)?;
    let labels = walk_labels(bytes, count.next, count.value, regions.count)?;
    Ok(Found {
        value: List {
            part: Part {
                first: count.next,
                count: count.value as usize,
            },
            breach: turns_breach(labels.value, regions),
        },
        next: labels.next,
    })
}

// As many numbers twice: the tallies of `count` spans.
fn judge_twice(bytes: &[u8], at: usize, count: usize) -> Result<usize, Refusal>
    requires { at ≤ length bytes.now }
    ensures { Told bytes.now (items_at number bytes.now at (count * tallies_per_span)) result }
{
    let middle = judge(bytes, at, count, u64::MAX)?;
    judge(bytes, middle, count, u64::MAX)
}

// The tallies behind their count. They break no rule.
fn tallies_list(bytes: &[u8], at: usize) -> Result<Found<List>, Refusal>
    requires { at ≤ length bytes.now }
    ensures { ListTold no_fault tallies_per_span bytes.now at result }
{
    let count = number_at(bytes, at)?;
    let next = judge_twice(bytes, count.next, count.value as usize)?;
    Ok(Found {
        value: List {
            part: Part {
                first: count.next,
                count: count.value as usize,
            },
            breach: None,
        },
        next,
    })
}

// Pairs or rows behind their count: entries of N numbers, of which the first ones, so many of them, are compared last.
fn keys_list<const N: usize>(bytes: &[u8], at: usize, last: usize) -> Result<Found<List>, Refusal>
    requires { (at ≤ length bytes.now) × (last ≤ N) × (N ≤ numbers_per_row) }
    ensures { ListTold (key_fault last) N bytes.now at result }
{
    let count = number_at(bytes, at)?;
    let keys = walk_keys::<N>(bytes, count.next, count.value, last)?;
    Ok(Found {
        value: List {
            part: Part {
                first: count.next,
                count: count.value as usize,
            },
            breach: keys.value.err(),
        },
        next: keys.next,
    })
}

// ---- the sheet

// The kind, which is to be 2, and the region count.
fn opening(bytes: &[u8]) -> Result<Found<RegionCount>, Refusal>
    ensures { OpeningTold bytes.now result }
{
    let kind = number_at(bytes, 0)?;
    ensure(kind.value == RESULT_KIND, Cause::Sheet)?;
    let place = kind.next;
    let regions = number_at(bytes, place)?;
    Ok(Found {
        value: RegionCount {
            count: regions.value,
            place,
        },
        next: regions.next,
    })
}

// Two lists, and the first place that breaks a rule of theirs, if there is one.
#[derive(Clone, Copy)]
struct BothLists {
    first: Part,
    second: Part,
    breach: Option<usize>,
}

// Labels and tallies.
fn front(bytes: &[u8], at: usize, regions: RegionCount) -> Result<Found<BothLists>, Refusal>
    requires { at ≤ length bytes.now }
    ensures { FrontTold regions.count regions.place bytes.now at result }
{
    let labels = labels_list(bytes, at, regions)?;
    let tallies = tallies_list(bytes, labels.next)?;
    Ok(Found {
        value: BothLists {
            first: labels.value.part,
            second: tallies.value.part,
            breach: labels.value.breach,
        },
        next: tallies.next,
    })
}

// Pairs and rows, and the end of the bytes behind them. A row has its number first, and is compared by its endpoints before that.
fn back(bytes: &[u8], at: usize) -> Result<Found<BothLists>, Refusal>
    requires { at ≤ length bytes.now }
    ensures { BackTold bytes.now at result }
{
    let pairs = keys_list::<NUMBERS_PER_PAIR>(bytes, at, 0)?;
    let rows = keys_list::<NUMBERS_PER_ROW>(bytes, pairs.next, 1)?;
    end_at(bytes, rows.next)?;
    Ok(Found {
        value: BothLists {
            first: pairs.value.part,
            second: rows.value.part,
            breach: pairs.value.breach.or(rows.value.breach),
        },
        next: rows.next,
    })
}

// What was found by judging: the region count, and where the lists stand.
#[derive(Clone, Copy)]
pub struct Plan {
    regions: u64,
    labels: Part,
    tallies: Part,
    pairs: Part,
    rows: Part,
}

// Judges the whole of the bytes.
#[tactic(auto, using(crate::proofs::Chains::result_no_back))]
fn judge_result(bytes: &[u8]) -> Result<Plan, Refusal>
    ensures { ResultTold bytes.now result }
{
    let opening = opening(bytes)?;
    let regions = opening.value;
    let front = front(bytes, opening.next, regions)?;
    let back = back(bytes, front.next)?;
    no_fault(front.value.breach.or(back.value.breach), Cause::ResultSheet)?;
    Ok(Plan {
        regions: regions.count,
        labels: front.value.first,
        tallies: front.value.second,
        pairs: back.value.first,
        rows: back.value.second,
    })
}

// ---- reading

// Stores the numbers of a list that was judged before, `size` of them an entry.
fn fill_list(bytes: &[u8], part: Part, size: usize, out: &mut [u64])
    requires { (PartHeld size bytes.now part) × (part.count * size ≤ length out.old) }
    ensures { out.new ≡ overwrite (part_numbers size bytes.now part) out.old }
{
    fill_numbers(bytes, part.first, part.count * size, out);
}

// The lists that are lent for what a sheet states.
#[derive(Drop)]
struct ResultLists<'a> {
    labels: &'a mut [u64],
    tallies: &'a mut [u64],
    pairs: &'a mut [u64],
    rows: &'a mut [u64],
}

impl ResultLists<'_> {
    // They have room for the result. A count times the size of its entries may be beyond 64 bits, so the length is divided.
    fn have_room(&self, plan: Plan) -> bool
        ensures { result
            ≡ room_in plan (length self.now.labels.now) (length self.now.tallies.now) (length self.now.pairs.now) (length self.now.rows.now) }
    {
        plan.labels.count <= self.labels.len()
            && plan.tallies.count <= self.tallies.len() / TALLIES_PER_SPAN
            && plan.pairs.count <= self.pairs.len() / NUMBERS_PER_PAIR
            && plan.rows.count <= self.rows.len() / NUMBERS_PER_ROW
    }

    // Fills them with what was judged before.
    fn fill(&mut self, bytes: &[u8], plan: Plan)
        requires held { PlanHeld bytes.now plan }
        requires room { Room plan (length self.old.labels.now) (length self.old.tallies.now) (length self.old.pairs.now) (length self.old.rows.now) }
        ensures filled { Filled bytes.now plan self.old self.new }
        ensures same { SameLists self.old self.new }
    {
        fill_list(bytes, plan.labels, LABEL_SIZE, self.labels);
        fill_list(bytes, plan.tallies, TALLIES_PER_SPAN, self.tallies);
        fill_list(bytes, plan.pairs, NUMBERS_PER_PAIR, self.pairs);
        fill_list(bytes, plan.rows, NUMBERS_PER_ROW, self.rows);
    }
}

// Reads a sheet of kind 2 into the lists; or refuses it, with the lists as they were.
fn read_result(
    bytes: &[u8],
    labels: &mut [u64],
    tallies: &mut [u64],
    pairs: &mut [u64],
    rows: &mut [u64],
) -> Result<Plan, Refusal>
    ensures { Reads bytes.now labels.old tallies.old pairs.old rows.old (answered result)
        labels.new tallies.new pairs.new rows.new }
{
    let plan = judge_result(bytes)?;
    let mut lists = ResultLists {
        labels,
        tallies,
        pairs,
        rows,
    };
    ensure(lists.have_room(plan), Cause::Room)?;
    lists.fill(bytes, plan);
    Ok(plan)
}

// ---- for other languages

// Number 0, place 0, the region count and four counts of entries; or a refusal's number and place, and 0 for the rest.
#[repr(C)]
#[derive(Clone, Copy, Default)]
pub struct ResultAnswer {
    pub number: u64,
    pub place: u64,
    pub regions: u64,
    pub labels: u64,
    pub spans: u64,
    pub pairs: u64,
    pub rows: u64,
}

impl From<Result<Plan, Refusal>> for ResultAnswer {
    ghost from_gives = { λ given answer. answer ≡ answered given };

    fn from(given: Result<Plan, Refusal>) -> ResultAnswer {
        match given {
            Ok(plan) => ResultAnswer {
                number: 0,
                place: 0,
                regions: plan.regions,
                labels: plan.labels.count as u64,
                spans: plan.tallies.count as u64,
                pairs: plan.pairs.count as u64,
                rows: plan.rows.count as u64,
            },
            Err(refusal) => ResultAnswer {
                number: refusal.cause.number(),
                place: refusal.place as u64,
                ..Default::default()
            },
        }
    }
}

// Reads a sheet of kind 2 into the lists: include/jenwyllt.h declares it as jenwyllt_read_result.
pub fn result_reader_read_result(
    bytes: &[u8],
    labels: &mut [u64],
    tallies: &mut [u64],
    pairs: &mut [u64],
    rows: &mut [u64],
) -> ResultAnswer
    ensures { Reads bytes.now labels.old tallies.old pairs.old rows.old result
        labels.new tallies.new pairs.new rows.new }
{
    ResultAnswer::from(read_result(bytes, labels, tallies, pairs, rows))
}
