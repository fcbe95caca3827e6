// What a call costs in short and in long transactions, and what their ends cost.
use crate::clock::{Cost, Lap, print_cost};
use crate::steps::{abort, begin, end, kernel_of, prepare};
use crate::work::{Work, do_often};
use anyhow::Result;
use heap::Heap;
use machine::Machine;

// What calls cost plainly and in transactions, and what the ends of these cost.
#[derive(Clone, Copy)]
struct Costs {
    plain: Cost,
    within: Cost,
    end: Cost,
    abort: Cost,
}

// Makes so many directories by plain calls, and removes them.
fn plain<K: Machine>(rt: &HostRuntime, kernel: &mut K, heap: Heap, calls: u64) -> Result<Cost> {
    let lap = Lap::start(rt, heap)?;
    do_often(kernel, heap, Work::Mkdir, calls)?;
    let cost = lap.cost(rt, heap)?;
    do_often(kernel, heap, Work::Rmdir, calls)?;
    Ok(cost)
}

// Makes so many directories in a transaction that stays open.
fn within<K: Machine>(rt: &HostRuntime, kernel: &mut K, heap: Heap, calls: u64) -> Result<Cost> {
    begin(kernel, 1)?;
    let lap = Lap::start(rt, heap)?;
    do_often(kernel, heap, Work::Mkdir, calls)?;
    lap.cost(rt, heap)
}

// Commits what `within` has made, and removes it.
fn commit<K: Machine>(rt: &HostRuntime, kernel: &mut K, heap: Heap, calls: u64) -> Result<Cost> {
    let lap = Lap::start(rt, heap)?;
    end(kernel, 1)?;
    let cost = lap.cost(rt, heap)?;
    do_often(kernel, heap, Work::Rmdir, calls)?;
    Ok(cost)
}

fn give_up<K: Machine>(rt: &HostRuntime, kernel: &mut K, heap: Heap) -> Result<Cost> {
    let lap = Lap::start(rt, heap)?;
    abort(kernel, 1)?;
    lap.cost(rt, heap)
}

// So many times: the calls plainly, in a transaction that is committed, and in one that is given
// up.
fn costs_of<K: Machine>(
    rt: &HostRuntime,
    kernel: &mut K,
    heap: Heap,
    calls: u64,
    times: u64,
) -> Result<Costs> {
    let mut sum = Costs {
        plain: Cost::none(),
        within: Cost::none(),
        end: Cost::none(),
        abort: Cost::none(),
    };
    for _ in 0..times {
        sum.plain = sum.plain.and(plain(rt, kernel, heap, calls)?);
        sum.within = sum.within.and(within(rt, kernel, heap, calls)?);
        sum.end = sum.end.and(commit(rt, kernel, heap, calls)?);
        sum.within = sum.within.and(within(rt, kernel, heap, calls)?);
        sum.abort = sum.abort.and(give_up(rt, kernel, heap)?);
    }
    Ok(sum)
}

fn print_length<K: Machine>(
    rt: &HostRuntime,
    kernel: &mut K,
    heap: Heap,
    row: &str,
    calls: u64,
    times: u64,
) -> Result<()> {
    let costs = costs_of(rt, kernel, heap, calls, times)?;
    let all = calls.saturating_mul(times);
    print_cost(rt, "plain", row, all, costs.plain)?;
    print_cost(rt, "within", row, all.saturating_mul(2), costs.within)?;
    print_cost(rt, "end", row, all, costs.end)?;
    print_cost(rt, "abort", row, all, costs.abort)
}

fn print_lengths_on<K: Machine>(rt: &HostRuntime, kernel: &mut K, heap: Heap) -> Result<()> {
    prepare(kernel, heap)?;
    for _ in 0..3u64 {
        print_length(rt, kernel, heap, "transactions of 10 calls", 10, 500)?;
        print_length(rt, kernel, heap, "transactions of 10000 calls", 10_000, 1)?;
    }
    Ok(())
}

/// Prints what a mkdir costs in transactions of 10 calls and of 10,000, and what for each call their
/// end costs and their abort.
pub(crate) fn print_lengths<K: Machine>(rt: &HostRuntime, heap: Heap) -> Result<()> {
    let mut kernel: K = kernel_of(heap, 1)?;
    let done = print_lengths_on(rt, &mut kernel, heap);
    drop(kernel);
    done
}
