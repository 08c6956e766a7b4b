// The terms of maps in the pool: their days, and the rule that a term breaks, 18 or 19.
ghost use Rattle.std.specs.Prelude.{◌≡◌, ◌+◌, ◌*◌, ◌≤◌, ◌&&◌, eqb, length, Some};
ghost use Rattle.catalogue.specs.Terms.{numbers_per_term, term_at, days_of, is_empty, overlap, contains, overlaps_earlier, term_fault};
ghost use Rattle.refusals.specs.Refusals.{refusal_in};
ghost use Rattle.pool_terms.specs.Contract.{days_as, days_in, term_as, term_in};

use crate::calendar::{Date, day_of, end_of};
use catalogue::sizes::NUMBERS_PER_TERM;
use refusals::{Cause, Refusal};

// The days of a term, from the first to the end, which no longer belongs to it.
#[derive(Clone, Copy)]
pub struct Days {
    pub from: u64,
    pub to: u64,
}

impl Days {
    // Whether it ends no later than it starts.
    pub fn is_empty(self) -> bool
        ensures { result ≡ is_empty (days_as self) }
    {
        self.to <= self.from
    }

    fn has(self, day: u64) -> bool
        ensures { result ≡ contains day (Some (days_as self)) }
    {
        self.from <= day && day < self.to
    }

    // Whether the two have a day in common, where neither is empty.
    fn overlaps(self, other: Days) -> bool
        ensures { result ≡ overlap (days_as self) (Some (days_as other)) }
    {
        self.from < other.to && other.from < self.to
    }
}

// A term as it is written: any seven numbers.
#[derive(Clone, Copy)]
pub struct Term {
    pub on_map: u64,
    pub first: Date,
    pub end: Date,
}

impl Term {
    pub fn read(numbers: &[u64; NUMBERS_PER_TERM]) -> Term
        ensures { term_as result ≡ term_in numbers.now }
    {
        let [on_map, year, month, day, end_year, end_month, end_day] = *numbers;
        Term {
            on_map,
            first: Date { year, month, day },
            end: Date {
                year: end_year,
                month: end_month,
                day: end_day,
            },
        }
    }

    // None where a date is bad.
    pub fn days(self) -> Option<Days>
        ensures { days_in result ≡ days_of (term_as self) }
    {
        let from = day_of(self.first)?;
        let to = end_of(self.end)?;
        Some(Days { from, to })
    }

    pub fn has_day(self, day: u64) -> bool
        ensures { result ≡ contains day (days_of (term_as self)) }
    {
        self.days().is_some_and(|days| days.has(day))
    }

    // Whether it is of the map and has a day in common with these.
    fn shares_day(self, map: u64, days: Days) -> bool
        ensures { result ≡ (eqb self.on_map map && overlap (days_as days) (days_of (term_as self))) }
    {
        self.on_map == map && self.days().is_some_and(|other| days.overlaps(other))
    }
}

// Term i of the list.
pub fn term_at(terms: &[u64], i: usize) -> Term
    requires { numbers_per_term * (i + 1) ≤ length terms.now }
    ensures { term_as result ≡ term_at terms.now i }
{
    let (terms, _) = terms.as_chunks::<NUMBERS_PER_TERM>();
    Term::read(&terms[i])
}

// Whether term i, which has these days, overlaps an earlier term of its map.
fn overlaps_earlier(terms: &[u64], i: usize, days: Days) -> bool
    requires { numbers_per_term * (i + 1) ≤ length terms.now }
    ensures { result ≡ overlaps_earlier terms.now i (days_as days) }
{
    let map = term_at(terms, i).on_map;
    (0..i).any(|j| term_at(terms, j).shares_day(map, days))
}

// Refuses term i, if it breaks a rule: 18 for a bad date, 19 where it is empty or overlaps an earlier one.
pub fn term_fault(terms: &[u64], i: usize) -> Result<(), Refusal>
    requires { numbers_per_term * (i + 1) ≤ length terms.now }
    ensures { refusal_in result ≡ term_fault terms.now i (days_of (term_at terms.now i)) }
{
    let days = term_at(terms, i).days().ok_or(Refusal {
        cause: Cause::Date,
        place: i,
    })?;
    if days.is_empty() || overlaps_earlier(terms, i, days) {
        return Err(Refusal {
            cause: Cause::Term,
            place: i,
        });
    }
    Ok(())
}
