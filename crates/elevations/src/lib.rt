// The elevation of most cells and its share of all, from counts by elevation: by value, and for programs in other languages.

#![tactic(auto)]

ghost use Rattle.std.specs.Prelude.{◌≡◌, [], ◌∷◌, ℕ, ◌≤◌, ◌<◌, get_or};
ghost use Rattle.definitions.specs.RegionRecord.{better, most_common_elevation, share_of, dominance_of};
ghost use Rattle.elevations.specs.Forms.{max_count, share_form, dominance_form, answer_of};

// A share in whole percents, and the remainder of the division that gave them.
#[derive(Clone, Copy, PartialEq, Eq)]
pub struct Share {
    pub percent: usize,
    pub remainder: usize,
}

// The elevation of most cells, and the share of all cells that have it, or none where there are no cells; `share_form` of specs/Forms.antt gives what it says.
#[derive(Clone, Copy, PartialEq, Eq)]
pub struct Dominance {
    pub elevation: usize,
    pub share: Option<Share>,
}

// Which of two elevations has more cells; of equal counts the former.
fn more_common(counts: [usize; 4], best: usize, e: usize) -> usize
    requires { (best < 4) × (e < 4) }
    ensures answer { result ≡ better counts best e }
    ensures bound { result < 4 }
{
    if counts[best] < counts[e] { e } else { best }
}

fn most_common_elevation(counts: [usize; 4]) -> usize
    ensures answer { result ≡ most_common_elevation counts }
    ensures bound { result < 4 }
{
    more_common(counts, more_common(counts, more_common(counts, 0, 1), 2), 3)
}

fn share_of(count: usize, cells: usize) -> Option<Share>
    requires { count ≤ max_count }
    ensures { share_form result ≡ share_of count cells }
{
    if cells == 0 {
        return None;
    }
    let hundredfold = count * 100;
    Some(Share {
        percent: hundredfold / cells,
        remainder: hundredfold % cells,
    })
}

// The share of elevation e.
fn share_at(counts: [usize; 4], e: usize, cells: usize) -> Option<Share>
    requires { (e < 4) × (get_or counts e 0 ≤ max_count) }
    ensures { share_form result ≡ share_of (get_or counts e 0) cells }
{
    share_of(counts[e], cells)
}

pub fn dominance_of(cells: usize, counts: [usize; 4]) -> Dominance
    requires { (e : ℕ) → get_or counts e 0 ≤ max_count }
    ensures { dominance_form result ≡ dominance_of cells counts }
{
    let elevation = most_common_elevation(counts);
    let share = share_at(counts, elevation, cells);
    Dominance { elevation, share }
}

// Percent and remainder are 0 where there is no share.
// Kept: a flag beside the values, since C takes no Option.
#[repr(C)]
#[derive(Clone, Copy)]
pub struct ElevationsAnswer {
    pub elevation: u64,
    pub has_share: bool,
    pub percent: u64,
    pub remainder: u64,
}

impl From<Dominance> for ElevationsAnswer {
    ghost from_gives = { λ d answer. answer ≡ answer_of (dominance_form d) };

    fn from(d: Dominance) -> ElevationsAnswer {
        let share = d.share.unwrap_or(Share {
            percent: 0,
            remainder: 0,
        });
        ElevationsAnswer {
            elevation: d.elevation as u64,
            has_share: d.share.is_some(),
            percent: share.percent as u64,
            remainder: share.remainder as u64,
        }
    }
}

// The dominance of so many cells, of which so many have elevation 0, 1, 2 and 3. Counts may be any numbers: their sum need not be that of the cells.
pub fn elevations_dominance(
    cells: u32,
    count_0: u32,
    count_1: u32,
    count_2: u32,
    count_3: u32,
) -> ElevationsAnswer
    ensures { result ≡ answer_of (dominance_of cells (count_0 ∷ count_1 ∷ count_2 ∷ count_3 ∷ [])) }
{
    let counts = [
        count_0 as usize,
        count_1 as usize,
        count_2 as usize,
        count_3 as usize,
    ];
    ElevationsAnswer::from(dominance_of(cells as usize, counts))
}
