// Lists of numbers in blocks of one size: boundaries, spans, rows.
ghost use Rattle.std.specs.Prelude.{◌≡◌, ◌+◌, ◌*◌, ◌≤◌, length};
ghost use Rattle.std.proofs.lemmas.List.Edits.{sets};
ghost use Rattle.definitions.specs.Limits.{max_entries};
ghost use Rattle.definitions.specs.Lists.{overwrite};
ghost use Rattle.boundary_blocks.specs.Blocks.{part, left_blocks, left_count};

use definitions::limits::MAX_ENTRIES;

// Copies a block from one list into another.
// Kept: `copy_from_slice` at each caller would say the place and the size twice in each of its two ranges.
pub fn copy_block(from: &[u64], at: usize, to: &mut [u64], place: usize, size: usize)
    requires { (at + size ≤ length from.now) × (place + size ≤ length to.old) }
    ensures { to.new ≡ sets to.old place (part at size from.now) }
{
    to[place..place + size].copy_from_slice(&from[at..at + size]);
}

// Moves the blocks that are not removed to the front, and gives how many there are.
pub fn keep_blocks(
    list: &mut [u64],
    size: usize,
    removed: &[bool; MAX_ENTRIES],
    count: usize,
) -> usize
    requires { (count ≤ max_entries) × (size * count ≤ length list.old) }
    ensures list { list.new ≡ overwrite (left_blocks removed.now size list.old count) list.old }
    ensures answer { result ≡ left_count removed.now count }
{
    let mut kept = 0;
    for (k, &gone) in removed[..count].iter().enumerate() {
        if !gone {
            let at = size * k;
            list.copy_within(at..at + size, size * kept);
            kept += 1;
        }
    }
    kept
}
