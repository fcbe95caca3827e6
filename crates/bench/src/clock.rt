// A running time, with the requests for memory, and the lines that are printed of it.
use anyhow::Result;
use heap::Heap;
use std::time::Instant;

/// How long some calls took, and how often memory was requested.
#[derive(Clone, Copy)]
pub(crate) struct Cost {
    pub(crate) nanos: u64,
    pub(crate) requests: u64,
}

impl Cost {
    /// No time, and no request.
    pub(crate) fn none() -> Cost {
        Cost {
            nanos: 0,
            requests: 0,
        }
    }

    /// This cost and another.
    pub(crate) fn and(self, other: Cost) -> Cost {
        Cost {
            nanos: self.nanos.saturating_add(other.nanos),
            requests: self.requests.saturating_add(other.requests),
        }
    }
}

/// A time that is running, with the requests that were made before.
#[derive(Clone, Copy)]
pub(crate) struct Lap {
    start: Instant,
    made: u64,
}

impl Lap {
    /// It starts now.
    pub(crate) fn start(rt: &HostRuntime, heap: Heap) -> Result<Lap> {
        let made = heap.made();
        Ok(Lap {
            start: Instant::now(rt)?,
            made,
        })
    }

    /// What has been spent since the start.
    pub(crate) fn cost(&self, rt: &HostRuntime, heap: Heap) -> Result<Cost> {
        let span = self.start.elapsed(rt)?;
        let part = u64::from(span.subsec_nanos());
        let nanos = span
            .as_secs()
            .saturating_mul(1_000_000_000)
            .saturating_add(part);
        let requests = heap.made().wrapping_sub(self.made);
        Ok(Cost { nanos, requests })
    }

    /// Prints what has been spent since the start as a line of the table.
    pub(crate) fn print(
        &self,
        rt: &HostRuntime,
        heap: Heap,
        way: &str,
        row: &str,
        calls: u64,
    ) -> Result<()> {
        print_cost(rt, way, row, calls, self.cost(rt, heap)?)
    }
}

/// A line of the table: how it was measured, the row's name, how many calls, their nanoseconds and
/// their requests for memory, with tabs between.
pub(crate) fn print_cost(
    rt: &HostRuntime,
    way: &str,
    row: &str,
    calls: u64,
    cost: Cost,
) -> Result<()> {
    println!(rt; "{way}\t{row}\t{calls}\t{}\t{}", cost.nanos, cost.requests)?;
    Ok(())
}
