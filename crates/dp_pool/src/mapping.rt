// One call for each item, in as many threads as there are workers.

ghost use Rattle.std.specs.Prelude.{◌≡◌, ◌+◌, ◌*◌, ◌/◌, ◌%◌, ◌^◌, ◌<◌, ◌≤◌, length, IfOk};
ghost use Rattle.std.specs.List.{AllZip};
ghost use Rattle.std.specs.Thread.{IsSend, IsSync};
ghost use Rattle.dp_base.specs.Lists.{Each};
ghost use Rattle.dp_pool.specs.Calls.{Gives, Takes};

use crate::Gate;
use dp_base::Memory;
use std::alloc::Global;
use std::thread::{Threads, join};

/// What `f` answers for each item, in the items' order, whatever the number of workers and the gate. The
/// items are cut into as many runs as there are workers, which go on at once. The gate is told of each
/// call before and after it. Refused only where a call is refused, or for want of memory.
pub fn map_all<
    R: Threads + Sync,
    T: Sync,
    X: Send + Drop,
    F: Fn(&T) -> Result<X, Memory> + Sync,
    G: Gate,
>(rt: &R, alloc: Global, items: &[T], workers: usize, f: &F, gate: &G) -> Result<Vec<X>, Memory>
    requires some { 1 ≤ workers }
    requires few { workers ≤ 64 }
    requires calls { Each (Takes F.Fn f.now) items.now }
    ensures { IfOk result (λ results. AllZip (Gives F.Fn f.now) items.now results.items) }
{
    share_out(rt, alloc, items, 0, workers, f, gate)
}

// The results of a run of the items, of which the first has this place: the workers take halves.
#[cycle(shares)]
fn share_out<
    R: Threads + Sync,
    T: Sync,
    X: Send + Drop,
    F: Fn(&T) -> Result<X, Memory> + Sync,
    G: Gate,
>(
    rt: &R,
    alloc: Global,
    items: &[T],
    first: usize,
    workers: usize,
    f: &F,
    gate: &G,
) -> Result<Vec<X>, Memory>
    requires some { 1 ≤ workers }
    requires few { workers ≤ 64 }
    requires places { first + length items.now < 2 ^ 64 }
    requires calls { Each (Takes F.Fn f.now) items.now }
    ensures { IfOk result (λ results. AllZip (Gives F.Fn f.now) items.now results.items) }
{
    if workers == 1 {
        return map_run(alloc, items, first, f, gate);
    }
    let low = workers / 2;
    let high = workers - low;
    let (front, back) = items.split_at(share(items.len(), low, workers));
    let middle = first + front.len();
    let theirs = move || -> Result<Vec<X>, Memory>
        requires { IsSync R.row × IsSync T.row × IsSync F.row × IsSync G.row × IsSend X.row × (1 ≤ low) × (low ≤ 64) × (first + length front.now < 2 ^ 64) × Each (Takes F.Fn f.now) front.now }
        ensures { IfOk result (λ results. AllZip (Gives F.Fn f.entry.now) front.entry.now results.items) }
    { share_out(rt, alloc, front, first, low, f, gate) };
    let ours = move || -> Result<Vec<X>, Memory>
        requires { IsSync R.row × IsSync T.row × IsSync F.row × IsSync G.row × IsSend X.row × (1 ≤ high) × (high ≤ 64) × (middle + length back.now < 2 ^ 64) × Each (Takes F.Fn f.now) back.now }
        ensures { IfOk result (λ results. AllZip (Gives F.Fn f.entry.now) back.entry.now results.items) }
    { share_out(rt, alloc, back, middle, high, f, gate) };
    let (low_results, high_results) = join(rt, theirs, ours);
    let mut results = low_results?;
    let mut rest = high_results?;
    results.append(&mut rest)?;
    Ok(results)
}

// How many of the items are the share of the first workers among all.
fn share(items: usize, first: usize, workers: usize) -> usize
    requires some { 1 ≤ workers }
    requires few { workers ≤ 64 }
    requires within { first ≤ workers }
    ensures { result ≤ items }
{
    items / workers * first + items % workers * first / workers
}

// The results of a run of the items, of which the first has this place, one call after another.
fn map_run<T, X: Drop, F: Fn(&T) -> Result<X, Memory>, G: Gate>(
    alloc: Global,
    items: &[T],
    first: usize,
    f: &F,
    gate: &G,
) -> Result<Vec<X>, Memory>
    requires places { first + length items.now < 2 ^ 64 }
    requires calls { Each (Takes F.Fn f.now) items.now }
    ensures { IfOk result (λ results. AllZip (Gives F.Fn f.now) items.now results.items) }
{
    let mut results = Vec::new(alloc);
    for place in 0..items.len() {
        let result = map_one(&items[place], first + place, f, gate)?;
        results.push(result)?;
    }
    Ok(results)
}

// The result for the item, which has this place. The gate stands around the call.
fn map_one<T, X, F: Fn(&T) -> Result<X, Memory>, G: Gate>(
    item: &T,
    place: usize,
    f: &F,
    gate: &G,
) -> Result<X, Memory>
    requires { Takes F.Fn f.now item.now }
    ensures { IfOk result (Gives F.Fn f.now item.now) }
{
    gate.enter(place);
    let result = f(item);
    gate.leave(place);
    result
}
