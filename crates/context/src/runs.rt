// What the cells of a run add to a record, in numbers: how many have each elevation, and how many the ramp bit. Neighbours that are equal are counted together.
ghost use Rattle.std.specs.Prelude.{◌≡◌, map, [], ◌∷◌, ℕ, ◌+◌, ◌-◌, ◌≤◌, ◌<◌, length, get_or, ltb};
ghost use Rattle.definitions.specs.Scan.{bit};
ghost use Rattle.definitions.specs.Grid.{elevation, is_ramp};
ghost use Rattle.definitions.specs.RegionRecord.{mask_of};
ghost use Rattle.context.specs.Records.{max_cells};
ghost use Rattle.context.specs.Runs.{Within, RunCounted};

#[derive(Clone, Copy)]
pub struct RunCounts {
    pub ramps: usize,
    pub elevations: [usize; 4],
}

fn elevation_of(cell: u8) -> usize
    ensures { result ≡ elevation cell }
{
    usize::from(cell / 4)
}

// 1 for a cell with the ramp bit, else 0.
fn ramp_bit(cell: u8) -> usize
    ensures { (result ≡ bit (is_ramp cell)) × (result ≤ 1) }
{
    usize::from(cell / 2 % 2)
}

pub fn run_counts(run: &[u8]) -> RunCounts
    requires { Within run.now 0 (length run.now) }
    ensures { RunCounted run.now 0 (length run.now) result }
{
    let mut ramps = 0;
    let mut elevations = [0; 4];
    for alike in run.chunk_by(|a, b| a == b) {
        let e = elevation_of(alike[0]);
        ramps += alike.len() * ramp_bit(alike[0]);
        elevations[e] += alike.len();
    }
    RunCounts { ramps, elevations }
}

// 1 where a cell is counted, else 0.
fn any_bit(count: usize) -> u8
    ensures { (result ≡ bit (ltb 0 count)) × (result ≤ 1) }
{
    u8::from(count > 0)
}

// The mask of the elevations that are counted.
pub fn mask_of(counts: [usize; 4]) -> u8
    ensures { result ≡ mask_of (λ e. ltb 0 (get_or counts e 0)) }
{
    any_bit(counts[0]) + 2 * any_bit(counts[1]) + 4 * any_bit(counts[2]) + 8 * any_bit(counts[3])
}

pub fn sums(old: [usize; 4], more: [usize; 4]) -> [usize; 4]
    requires old_small { (e : ℕ) → get_or old e 0 ≤ max_cells }
    requires more_small { (e : ℕ) → get_or more e 0 ≤ max_cells }
    ensures { result ≡ map (λ e. get_or old e 0 + get_or more e 0) (0 ∷ 1 ∷ 2 ∷ 3 ∷ []) }
{
    [
        old[0] + more[0],
        old[1] + more[1],
        old[2] + more[2],
        old[3] + more[3],
    ]
}
