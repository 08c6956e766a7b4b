// The first term that breaks a rule, 18 or 19.
ghost use Rattle.std.specs.Prelude.{◌≡◌, ◌%◌, ◌≤◌, ◌<◌, ltb};
ghost use Rattle.catalogue.specs.Terms.{term_count, days_of, terms_refusal};
ghost use Rattle.refusals.specs.Refusals.{refusal_in};
ghost use Rattle.pool_terms.specs.Contract.{term_as, first_in, end_in};
ghost use Rattle.pool_faults.specs.Ends.{EndKept, passes};
ghost use Rattle.pool_faults.specs.Apart.{Sound, Faultless};

use crate::apart::apart_terms;
use catalogue::sizes::NUMBERS_PER_TERM;
use catalogue::slots::slot_of;
use pool_terms::terms::{Term, term_at, term_fault};
use refusals::Refusal;

// Maps are told apart by the remainders of their numbers, as far as that goes.
const SLOTS: usize = 4096;

// Keeps the latest end of the slot's terms, with this one among them.
fn keep_end(term: Term, ends: &mut [u64; SLOTS])
    ensures { EndKept (term_as term) ends.old ends.new }
{
    if let Some(days) = term.days() {
        let slot = slot_of::<SLOTS>(term.on_map);
        ends[slot] = ends[slot].max(days.to);
    }
}

// Whether the term is sound, its dates good and its end later than its first day, and starts no earlier than the latest end of its map's slot, so that it
// breaks no rule.
fn passes(term: Term, ends: &[u64; SLOTS]) -> bool
    ensures { result ≡ passes (term_as term) ends.now }
{
    let latest = ends[slot_of::<SLOTS>(term.on_map)];
    term.days()
        .is_some_and(|days| !days.is_empty() && latest <= days.from)
}

// How many of the first terms pass, one after the other: all that come in the order of their days.
fn passing_terms(terms: &[u64]) -> usize
    ensures { (result ≤ term_count terms.now) × Faultless terms.now result }
{
    let count = terms.len() / NUMBERS_PER_TERM;
    let mut ends = [0u64; SLOTS];
    // Kept: each term is asked about by the ends of those before it. A closure of `find` would ask and keep the end in one, and be no plainer.
    for i in 0..count {
        let term = term_at(terms, i);
        if !passes(term, &ends) {
            return i;
        }
        keep_end(term, &mut ends);
    }
    count
}

// Whether the term's dates are good, and its end is later than its first day.
fn is_sound(term: Term) -> bool
    ensures { result ≡ ltb (first_in (days_of (term_as term))) (end_in (days_of (term_as term))) }
{
    term.days().is_some_and(|days| !days.is_empty())
}

// How many of the first terms are sound, where those below `known` are known to be.
fn sound_terms(terms: &[u64], known: usize) -> usize
    requires { (known ≤ term_count terms.now) × Sound terms.now known }
    ensures { (known ≤ result) × (result ≤ term_count terms.now) × Sound terms.now result }
{
    let count = terms.len() / NUMBERS_PER_TERM;
    (known..count)
        .find(|&i| !is_sound(term_at(terms, i)))
        .unwrap_or(count)
}

// How many of the first terms are known to break no rule: all, or up to the first that does. Terms that do not come in the order of their days are sorted.
fn faultless_terms(terms: &[u64]) -> usize
    ensures { (result ≤ term_count terms.now) × Faultless terms.now result }
{
    let passing = passing_terms(terms);
    let sound = sound_terms(terms, passing);
    if sound == passing {
        return passing;
    }
    apart_terms(&terms[..NUMBERS_PER_TERM * sound])
}

// Refuses the first term that breaks a rule.
pub fn terms_fault(terms: &[u64]) -> Result<(), Refusal>
    ensures { refusal_in result ≡ terms_refusal terms.now }
{
    // Kept: `try_for_each` would say it in a line less. The promise says which term is refused first, which no lemma of std draws from what it gives.
    for i in faultless_terms(terms)..terms.len() / NUMBERS_PER_TERM {
        term_fault(terms, i)?;
    }
    Ok(())
}
