// Labels take the place of parents, from the first cell on: a parent stands before its child, so that it has its label when the child's is asked for.
ghost use Rattle.std.specs.Prelude.{◌≡◌, ℕ, ◌≤◌, length};
ghost use Rattle.row_runs.specs.Numbered.{label_at, LabelAsked, Named, NumberAsked, Numbered};

use crate::run::put_alike;
use grid_steps::is_walkable;

// The label of the stretch whose first cell is c, where `id` labels are given before it. Who is his own parent gets the next.
fn label_at(cells: &[u8], labels: &[u32], c: usize, id: u32) -> u32
    requires { LabelAsked cells.now labels.now c id }
    ensures { result ≡ label_at cells.now labels.now c id }
{
    if !is_walkable(cells[c]) {
        return 0;
    }
    let p = labels[c] as usize;
    if p == c {
        return id + 1;
    }
    labels[p]
}

// All stretches, one behind another. The greatest label given is how many there are.
pub fn number(cells: &[u8], labels: &mut [u32], queue: &[u32], n: usize) -> usize
    requires { NumberAsked cells.now labels.old queue.now n }
    ensures { (name : ℕ → ℕ) →
        Named cells.now labels.old queue.now n name →
        Numbered cells.now n name labels.old labels.new result }
{
    let mut id: u32 = 0;
    let mut c = 0;
    // Kept: `iter::successors` could give these places, and is no plainer: each would be read from the queue once for the way and once as the end of its
    // stretch.
    while c < n {
        let e = queue[c] as usize;
        let label = label_at(cells, labels, c, id);
        put_alike(labels, c, e, label);
        id = id.max(label);
        c = e;
    }
    id as usize
}
