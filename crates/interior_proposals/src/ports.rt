// The ports of a candidate: the boundaries about it that are no edges of it.
ghost use Rattle.std.specs.Prelude.{◌≡◌, true, ◌≤◌, ◌<◌, IfSome};
ghost use Rattle.definitions.specs.Context.{Context};
ghost use Rattle.definitions.specs.RampInteriors.{components, component_ports};
ghost use Rattle.interior_proposals.specs.Owners.{owner_at, Owned, Owners};
ghost use Rattle.interior_proposals.specs.Candidates.{Mapped, SomeMapped, AllMapped, candidate, port, NextPort, two_ports};

use crate::owners::{Components, touches};
use context::PartitionContext;
use context::found_regions::FoundRegions;

// The two ports of a candidate that has no others.
#[derive(Clone, Copy)]
pub struct Ports {
    pub first: usize,
    pub second: usize,
}

// Whether boundary i is a port of the candidate r.
fn is_port(context: PartitionContext, known: Components, i: usize, r: u32) -> bool
    requires { SomeMapped context.pairs.now context.starts.now known.names.now known.marks.now r i }
    ensures { (C : Context) →
        Mapped C context.entry.pairs.now context.entry.starts.now known.entry.names.now known.entry.marks.now r →
        i < C.count →
        Owned C i (owner_at known.entry.owners.now i) →
        candidate C r ≡ true →
        result ≡ port C r i }
{
    match known.owners[i] {
        // It is an edge of r, or all its pairs lie in another component.
        FoundRegions::One(_) => false,
        FoundRegions::None | FoundRegions::Several => {
            touches(known.names, context.pairs, context.rows(i), r)
        }
    }
}

// The first port of the candidate r from `first` on.
fn next_port(context: PartitionContext, known: Components, r: u32, first: usize) -> Option<usize>
    requires mapped { AllMapped context.pairs.now context.starts.now known.names.now known.marks.now r context.count }
    requires ordered { first ≤ context.count }
    ensures next_port { (C : Context) →
        Mapped C context.entry.pairs.now context.entry.starts.now known.entry.names.now known.entry.marks.now r →
        C.count ≡ context.entry.count →
        Owners C known.entry.owners.now →
        candidate C r ≡ true →
        NextPort C r context.entry.count first result }
    ensures bound { IfSome result (λ i. i < context.entry.count) }
{
    (first..context.count).find(|&i| is_port(context, known, i, r))
}

// The ports of the candidate r, if they are two.
pub fn find_ports(context: PartitionContext, known: Components, r: u32) -> Option<Ports>
    requires { AllMapped context.pairs.now context.starts.now known.names.now known.marks.now r context.count }
    ensures { (C : Context) →
        Mapped C context.entry.pairs.now context.entry.starts.now known.entry.names.now known.entry.marks.now r →
        C.count ≡ context.entry.count →
        Owners C known.entry.owners.now →
        candidate C r ≡ true →
        result ≡ two_ports (component_ports C (components C) r) }
{
    let first = next_port(context, known, r, 0)?;
    let second = next_port(context, known, r, first + 1)?;
    let third = next_port(context, known, r, second + 1);
    third.is_none().then_some(Ports { first, second })
}
