// Parents of numbers, held in a lent list: a number's parent is no larger, and who is his own parent names a class. Classes are joined two at a time,
// by the lesser name.

#![tactic(auto)]

ghost use Rattle.std.specs.Prelude.{ℕ, ◌≤◌, ◌<◌, length};
ghost use Rattle.parents.specs.Forest.{Forest, Placed, PlacedTwo, Found, Left, joined_name};

// The name of a number's class. Every second parent on the way becomes its parent's parent, so that the next way is shorter.
pub fn find(parents: &mut [u32], from: usize) -> usize
    requires { Placed parents.old from }
    ensures { (n : ℕ) (name : ℕ → ℕ) →
        Forest n name parents.old →
        from < n →
        Found n name from parents.old parents.new result }
{
    let mut c = from;
    let mut p = parents[c] as usize;
    // Kept: `iter::successors` would hold the list in which each turn writes.
    while p != c {
        let q = parents[p];
        parents[c] = q;
        c = q as usize;
        p = parents[c] as usize;
    }
    c
}

// The classes of a and b become one. Where both have one parent they are one already.
pub fn join(parents: &mut [u32], a: usize, b: usize)
    requires { PlacedTwo parents.old a b }
    ensures { (n : ℕ) (name : ℕ → ℕ) →
        Forest n name parents.old →
        a < n →
        b < n →
        Left n (joined_name name a b) parents.old parents.new }
{
    if parents[a] == parents[b] {
        return;
    }
    let i = find(parents, a);
    let j = find(parents, b);
    parents[i.max(j)] = i.min(j) as u32;
}

// Each number below n is alone.
pub fn alone(parents: &mut [u32], n: usize)
    requires { (n ≤ length parents.old) × (n ≤ 1048576) }
    ensures { Left n (λ c. c) parents.old parents.new }
{
    for (c, parent) in parents[..n].iter_mut().enumerate() {
        *parent = c as u32;
    }
}
