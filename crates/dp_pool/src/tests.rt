ghost use Rattle.std.specs.Prelude.{◌≤◌};

use super::*;
use dp_base::Memory;
use std::alloc::Global;
use std::sync::atomic::{AtomicU64, Ordering};
use std::test::Fail;
use std::thread::Threads;

/// Counts the calls that have begun and those that have come back, and adds up their places.
#[derive(Drop)]
struct Counter {
    entered: AtomicU64,
    left: AtomicU64,
    places: AtomicU64,
}

impl Counter {
    fn new() -> Counter {
        Counter {
            entered: AtomicU64::new(0),
            left: AtomicU64::new(0),
            places: AtomicU64::new(0),
        }
    }
}

impl Gate for Counter {
    fn enter(&self, place: usize) {
        self.entered.fetch_add(1, Ordering::SeqCst);
        self.places.fetch_add(place as u64, Ordering::SeqCst);
    }

    fn leave(&self, _place: usize) {
        self.left.fetch_add(1, Ordering::SeqCst);
    }
}

// Twice each item, by so many workers. A 9 is refused.
fn doubled<R: Threads + Sync, G: Gate>(
    rt: &R,
    alloc: Global,
    items: &[u32],
    workers: usize,
    gate: &G,
) -> Result<Vec<u64>, Memory>
    requires some { 1 ≤ workers }
    requires few { workers ≤ 64 }
{
    map_all(rt, alloc, items, workers, &|item: &u32| double(*item), gate)
}

fn double(item: u32) -> Result<u64, Memory> {
    if item == 9 {
        Err(Memory)
    } else {
        Ok(u64::from(item) * 2)
    }
}

const FIVE: &[u32] = &[5, 3, 8, 1, 4];

const TWICE: &[u64] = &[10, 6, 16, 2, 8];

#[test]
fn results_stand_in_the_items_order(rt: HostRuntime) -> Result<(), Fail> {
    let alone = doubled(&rt, rt.alloc(), FIVE, 1, &Open)?;
    let two = doubled(&rt, rt.alloc(), FIVE, 2, &Open)?;
    let three = doubled(&rt, rt.alloc(), FIVE, 3, &Open)?;
    assert!(rt; alone.as_slice() == TWICE);
    assert!(rt; two.as_slice() == TWICE);
    assert!(rt; three.as_slice() == TWICE);
    Ok(())
}

#[test]
fn there_may_be_more_workers_than_items(rt: HostRuntime) -> Result<(), Fail> {
    let seven = doubled(&rt, rt.alloc(), FIVE, 7, &Open)?;
    let most = doubled(&rt, rt.alloc(), FIVE, 64, &Open)?;
    assert!(rt; seven.as_slice() == TWICE);
    assert!(rt; most.as_slice() == TWICE);
    Ok(())
}

#[test]
fn one_item_and_none(rt: HostRuntime) -> Result<(), Fail> {
    let one = doubled(&rt, rt.alloc(), &[7], 3, &Open)?;
    let none = doubled(&rt, rt.alloc(), &[], 64, &Open)?;
    assert!(rt; one.as_slice() == [14].as_slice());
    assert!(rt; none.is_empty());
    Ok(())
}

#[test]
fn a_refused_call_refuses_all(rt: HostRuntime) -> Result<(), Fail> {
    let alone = doubled(&rt, rt.alloc(), &[5, 3, 9, 1, 4], 1, &Open);
    let three = doubled(&rt, rt.alloc(), &[5, 3, 8, 1, 9], 3, &Open);
    assert!(rt; alone.is_err());
    assert!(rt; three.is_err());
    Ok(())
}

#[test]
fn a_gate_is_told_of_each_call(rt: HostRuntime) -> Result<(), Fail> {
    let counter = Counter::new();
    let three = doubled(&rt, rt.alloc(), FIVE, 3, &counter)?;
    assert!(rt; three.as_slice() == TWICE);
    assert!(rt;
        counter.entered.load(Ordering::SeqCst) == 5 && counter.left.load(Ordering::SeqCst) == 5
    );
    assert!(rt; counter.places.load(Ordering::SeqCst) == 10);
    Ok(())
}
