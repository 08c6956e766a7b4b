// Lists that are zero again as far as a call has filled them.
ghost use Rattle.std.specs.Prelude.{◌≡◌, ◌≤◌, length};
ghost use Rattle.definitions.specs.Lists.{zeroed};

// Masks and queue, which a call is lent to work in: by SPECIFICATION 3 they are zero over the needed length once it returns.
pub fn clear_scratch(masks: &mut [u16], queue: &mut [u32], needed: usize)
    requires { (needed ≤ length masks.old) × (needed ≤ length queue.old) }
    ensures { (masks.new ≡ zeroed needed masks.old) × (queue.new ≡ zeroed needed queue.old) }
{
    masks[..needed].fill(0);
    queue[..needed].fill(0);
}

// Tallies and pairs, before spans of the same lists are assessed again: so many numbers of each.
pub fn clear_assessed(tallies: &mut [u32], pairs: &mut [u32], counted: usize, paired: usize)
    requires { (counted ≤ length tallies.old) × (paired ≤ length pairs.old) }
    ensures { (tallies.new ≡ zeroed counted tallies.old) × (pairs.new ≡ zeroed paired pairs.old) }
{
    tallies[..counted].fill(0);
    pairs[..paired].fill(0);
}
