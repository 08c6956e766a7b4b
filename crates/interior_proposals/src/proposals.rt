// What is found of a component before its records are looked at.
ghost use Rattle.std.specs.Prelude.{◌≡◌, false, List, ℕ, ◌+◌, ◌<◌, length};
ghost use Rattle.definitions.specs.Limits.{max_entries};
ghost use Rattle.definitions.specs.Context.{Context};
ghost use Rattle.context.specs.Shown.{ShownPairs};
ghost use Rattle.interior_proposals.specs.Given.{Marked};
ghost use Rattle.interior_proposals.specs.Leaves.{Inside, PortReachable, BothWalked};
ghost use Rattle.interior_proposals.specs.Proposals.{Facing, SomeFacing, Proposed, FirstOf, found_ports, Progress, Owning, SomeProgress, FoundAll};

use crate::candidates::is_candidate;
use crate::fits::ports_fit;
use crate::leaves::expand_port;
use crate::owners::Components;
use crate::ports::{Ports, find_ports};
use context::PartitionContext;
use context::found_regions::FoundRegions;
use definitions::limits::MAX_ENTRIES;

// The leaves beyond both ports. Whether both are valid.
fn expand_ports(
    names: &mut [u32],
    marks: &mut [u16],
    context: PartitionContext,
    ports: Ports,
    r: u32,
) -> bool
    requires first_reachable { PortReachable context.pairs.now context.starts.now names.old marks.old ports.first }
    requires second_reachable { PortReachable context.pairs.now context.starts.now names.old marks.old ports.second }
    ensures expanded { (C : Context) (rs : List ℕ) →
        ShownPairs C context.entry.pairs.now context.entry.starts.now →
        ports.first < C.count →
        ports.second < C.count →
        Inside C r rs names.old →
        Marked C (λ y. false) marks.old →
        BothWalked C ports.first ports.second r rs names.old names.new marks.old marks.new result }
    ensures lengths { (length names.new ≡ length names.old) × (length marks.new ≡ length marks.old) }
{
    let first = expand_port(names, marks, context.pairs, context.rows(ports.first), r);
    let second = expand_port(names, marks, context.pairs, context.rows(ports.second), r);
    first & second
}

// The two ports of the component r, if it is a candidate with two ports that fit and are valid. The names then hold r for each of its regions and leaves.
fn propose(
    context: PartitionContext,
    names: &mut [u32],
    marks: &mut [u16],
    owners: &[FoundRegions; MAX_ENTRIES],
    r: u32,
) -> Option<Ports>
    requires { SomeFacing context.boundaries.now context.tallies.now context.pairs.now context.starts.now names.old marks.old
        owners.now context.count r }
    ensures proposed { (C : Context) →
        Facing C context.entry.boundaries.now context.entry.tallies.now context.entry.pairs.now context.entry.starts.now names.old
        marks.old owners.now context.entry.count r →
        Proposed C r names.old names.new marks.old marks.new result }
    ensures lengths { (length names.new ≡ length names.old) × (length marks.new ≡ length marks.old) }
{
    let known = Components {
        names,
        marks,
        owners,
    };
    if !is_candidate(context, known, r) {
        return None;
    }
    let ports = find_ports(context, known, r)?;
    if !ports_fit(context, ports) {
        return None;
    }
    expand_ports(names, marks, context, ports, r).then_some(ports)
}

// The component of which boundary i is the first edge.
fn first_of(owners: &[FoundRegions; MAX_ENTRIES], i: usize) -> Option<u32>
    requires { i < max_entries }
    ensures { FirstOf owners.now i result }
{
    let FoundRegions::One(name) = owners[i] else {
        return None;
    };
    (!owners[..i].contains(&owners[i])).then_some(name)
}

// What is found at boundary i, if it comes first.
fn propose_at(
    context: PartitionContext,
    names: &mut [u32],
    marks: &mut [u16],
    owners: &[FoundRegions; MAX_ENTRIES],
    i: usize,
) -> Option<Ports>
    requires i_within { i < context.count }
    requires progress { SomeProgress context.boundaries.now context.tallies.now context.pairs.now context.starts.now names.old marks.old
        owners.now context.count i }
    ensures proposed { (C : Context) (was wasMarks : List ℕ) →
        Owning C context.entry.boundaries.now context.entry.tallies.now context.entry.pairs.now context.entry.starts.now owners.now
        context.entry.count →
        Progress C owners.now was names.old wasMarks marks.old i →
        Progress C owners.now was names.new wasMarks marks.new (i + 1) × (result ≡ found_ports C owners.now i) }
    ensures lengths { (length names.new ≡ length names.old) × (length marks.new ≡ length marks.old) }
{
    let r = first_of(owners, i)?;
    propose(context, names, marks, owners, r)
}

// What is found of all components, at the first boundary of each.
pub fn propose_all(
    context: PartitionContext,
    names: &mut [u32],
    marks: &mut [u16],
    owners: &[FoundRegions; MAX_ENTRIES],
    found: &mut [Option<Ports>; MAX_ENTRIES],
)
    requires progress { SomeProgress context.boundaries.now context.tallies.now context.pairs.now context.starts.now names.old marks.old
        owners.now context.count 0 }
    requires room { length found.old ≡ max_entries }
    ensures proposed { (C : Context) (was wasMarks : List ℕ) →
        Owning C context.entry.boundaries.now context.entry.tallies.now context.entry.pairs.now context.entry.starts.now owners.now
        context.entry.count →
        Progress C owners.now was names.old wasMarks marks.old 0 →
        Progress C owners.now was names.new wasMarks marks.new C.count
        × FoundAll C owners.now found.new C.count }
    ensures lengths { (length names.new ≡ length names.old) × (length marks.new ≡ length marks.old) }
{
    for (i, ports) in found[..context.count].iter_mut().enumerate() {
        *ports = propose_at(context, names, marks, owners, i);
    }
}
