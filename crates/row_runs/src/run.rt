// The cells of a row get their parents: those of a run its first cell, all others themselves.
ghost use Rattle.std.specs.Prelude.{ℕ, ◌≤◌, ◌<◌, length};
ghost use Rattle.parents.specs.Forest.{Forest};
ghost use Rattle.row_runs.specs.Numbered.{Filled};
ghost use Rattle.row_runs.specs.Names.{Fresh, RunAsked, RunPut, PutAsked, StretchPut, ScanAsked, RowScanned};

use crate::grid::CutGrid;
use crate::row::stretch_end;
use grid_steps::is_walkable;

// One value for the entries of a part of a stretch.
fn put_part(list: &mut [u32], from: usize, end: usize, value: u32)
    requires { (from ≤ end) × (end ≤ length list.old) }
    ensures { Filled from end value list.old list.new }
{
    list[from..end].fill(value);
}

// The same, one entry at a time.
// Kept: a loop and no `fill`, which is made for many entries: with it labelling `checkered` (bench/), whose stretches have one or two cells, takes a tenth more
// instructions.
fn put_few(list: &mut [u32], from: usize, end: usize, value: u32)
    requires { (from ≤ end) × (end ≤ length list.old) }
    ensures { Filled from end value list.old list.new }
{
    for c in from..end {
        list[c] = value;
    }
}

// One value for all entries of a stretch, eight at a time. The last eight may be in part those before them, so that no branch hangs on how many are left, which
// cannot be foreseen.
pub fn put_alike(list: &mut [u32], from: usize, end: usize, value: u32)
    requires { (from ≤ end) × (end ≤ length list.old) }
    ensures { Filled from end value list.old list.new }
{
    if end < from + 8 {
        put_few(list, from, end, value);
        return;
    }
    let mut c = from;
    // Kept: `chunks_exact_mut` would give the eights, but no place from which the last eight entries are counted back.
    while c + 8 <= end {
        put_part(list, c, c + 8, value);
        c += 8;
    }
    put_part(list, end - 8, end, value);
}

fn put_run(parents: &mut [u32], from: usize, end: usize)
    requires { RunAsked parents.old from end }
    ensures { (n : ℕ) (name : ℕ → ℕ) →
        Forest n name parents.old →
        Fresh n from parents.old →
        end ≤ n →
        RunPut n name from end parents.old parents.new }
{
    put_alike(parents, from, end, from as u32);
}

// A gap's cells stay alone.
fn put_stretch(cells: &[u8], parents: &mut [u32], from: usize, end: usize)
    requires { PutAsked cells.now parents.old from end }
    ensures { (n : ℕ) (name : ℕ → ℕ) →
        Forest n name parents.old →
        Fresh n from parents.old →
        end ≤ n →
        StretchPut cells.now n name from end parents.old parents.new }
{
    if !is_walkable(cells[from]) {
        return;
    }
    put_run(parents, from, end);
}

// The stretches of the row from `from` to `end`, one behind another.
pub fn scan_row(
    grid: CutGrid,
    parents: &mut [u32],
    queue: &mut [u32],
    from: usize,
    end: usize,
    marked: bool,
)
    requires { ScanAsked grid.terrain.cells.now grid.masks.now parents.old queue.old from end marked }
    ensures { (n : ℕ) (name : ℕ → ℕ) →
        Forest n name parents.old →
        Fresh n from parents.old →
        end ≤ n →
        RowScanned grid.entry.terrain.cells.now grid.entry.masks.now n name from end parents.old queue.old
        parents.new queue.new }
{
    let mut c = from;
    // Kept: `iter::from_fn` could give the stretches, with the place in its closure, and is no plainer.
    while c < end {
        let e = stretch_end(grid, c, end, marked);
        queue[c] = e as u32;
        put_stretch(grid.terrain.cells, parents, c, e);
        c = e;
    }
}
