// Rings of 2, 3 and 32; and one who waits for a ring without being on it.
ghost use Rattle.std.specs.Prelude.{◌<◌, ◌≤◌};

use clerk::Clerk;
use locks::graph::WaitGraph;
use locks::set::ClerkSet;
use std::process::Abort;
use std::test::Fail;

// The first n clerks wait each for the next, and the last of them for the first.
fn ring_of(n: u32) -> WaitGraph
    requires { (0 < n) × (n ≤ 32) }
{
    let mut graph = WaitGraph::none();
    // By number: the clerks stand in no list.
    for c in 0..n {
        let next = if c + 1 < n { c + 1 } else { 0 };
        graph.put(Clerk::new(c), ClerkSet::none().with(Clerk::new(next)));
    }
    graph
}

// The first and the last are on it, and who isn't of it is not.
fn all_on(rt: &impl Abort, n: u32)
    requires { (0 < n) × (n < 32) }
{
    let graph = ring_of(n);
    assert_eq!(rt; graph.on_ring(Clerk::new(0)), true);
    assert_eq!(rt; graph.on_ring(Clerk::new(n - 1)), true);
    assert_eq!(rt; graph.on_ring(Clerk::new(n)), false);
    assert_eq!(rt; graph.counts(Clerk::new(n)), true);
}

#[test]
fn two_and_three(rt: HostRuntime) {
    all_on(&rt, 2);
    all_on(&rt, 3);
}

#[test]
fn thirty_two(rt: HostRuntime) {
    let graph = ring_of(32);
    assert_eq!(rt; graph.on_ring(Clerk::new(0)), true);
    assert_eq!(rt; graph.on_ring(Clerk::new(31)), true);
}

// A row that doesn't close is no ring.
#[test]
fn a_row_is_no_ring(rt: HostRuntime) {
    let mut graph = ring_of(32);
    graph.put(Clerk::new(31), ClerkSet::none());
    assert_eq!(rt; graph.on_ring(Clerk::new(0)), false);
    assert_eq!(rt; graph.counts(Clerk::new(0)), false);
    assert_eq!(rt; graph.counts(Clerk::new(31)), true);
}

// Clerk 7 waits for a ring, and isn't on it: it doesn't count, though it asked first.
#[test]
fn beside_a_ring(rt: HostRuntime) -> Result<(), Fail> {
    let mut graph = ring_of(3);
    graph.put(Clerk::new(7), ClerkSet::none().with(Clerk::new(1)));
    assert_eq!(rt; graph.on_ring(Clerk::new(7)), false);
    assert_eq!(rt; graph.counts(Clerk::new(7)), false);
    let order = [7u64, 2, 9, 0];
    let pick = graph.choose(&order).ok_or("nobody")?;
    assert_eq!(rt; pick.place, 1);
    assert_eq!(rt; pick.who, Clerk::new(2));
    assert_eq!(rt; pick.clash, true);
    Ok(())
}

// The first who is free is served before a ring that asked later.
#[test]
fn the_first_who_counts(rt: HostRuntime) -> Result<(), Fail> {
    let graph = ring_of(2);
    let order = [9u64, 0, 1];
    let pick = graph.choose(&order).ok_or("nobody")?;
    assert_eq!(rt; pick.who, Clerk::new(9));
    assert_eq!(rt; pick.clash, false);
    Ok(())
}
