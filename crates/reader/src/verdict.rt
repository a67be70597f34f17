ghost use Rattle.std.specs.Prelude.{◌≡◌};
ghost use Rattle.reader.specs.Checks.{time_at, times_in, record_of};

use head::Opening;
use layout::Layout;

// How many run times a version has, and eight of them, the latest first, as they stand; those that it does not have are 0.
#[derive(Clone, Copy, Debug, PartialEq, Eq)]
pub struct RunTimes {
    pub count: u32,
    pub latest: u64,
    pub second: u64,
    pub third: u64,
    pub fourth: u64,
    pub fifth: u64,
    pub sixth: u64,
    pub seventh: u64,
    pub eighth: u64,
}

// What a file says of its program.
#[derive(Clone, Copy, Debug, PartialEq, Eq)]
pub struct Acceptance {
    pub version: u32,
    pub declared_size: u32,
    pub name_units: usize,
    pub stored_hash: u32,
    pub times: RunTimes,
    pub run_count: u32,
    pub metrics_count: u32,
    pub trace_count: u32,
    pub volume_count: u32,
    pub chain_count: usize,
}

// Run time j of a version, from the first bytes of a file.
fn time_at(l: Layout, b: &[u8], j: u16) -> u64
    ensures { result ≡ time_at l b.now j }
{
    if j < l.time_count {
        return little_endian::u64_at(b, l.run_time_at as usize + 8 * (j as usize));
    }
    0
}

fn times_in(l: Layout, b: &[u8]) -> RunTimes
    ensures { result ≡ times_in l b.now }
{
    RunTimes {
        count: l.time_count as u32,
        latest: time_at(l, b, 0),
        second: time_at(l, b, 1),
        third: time_at(l, b, 2),
        fourth: time_at(l, b, 3),
        fifth: time_at(l, b, 4),
        sixth: time_at(l, b, 5),
        seventh: time_at(l, b, 6),
        eighth: time_at(l, b, 7),
    }
}

// The record that the first bytes of a file give, up to the end of its head.
pub(crate) fn record_of(o: Opening, b: &[u8], chains: usize) -> Acceptance
    ensures { result ≡ record_of o b.now chains }
{
    let l = o.layout;
    let times = times_in(l, b);
    let run_count = l.run_count_at as usize;
    let head = o.head;
    Acceptance {
        version: u32::from(o.version),
        declared_size: little_endian::u32_at(b, layout::DECLARED_SIZE_AT),
        name_units: o.name_units,
        stored_hash: little_endian::u32_at(b, layout::STORED_HASH_AT),
        times,
        run_count: little_endian::u32_at(b, run_count),
        metrics_count: head.metrics.count,
        trace_count: head.trace.count,
        volume_count: head.volumes.count,
        chain_count: chains,
    }
}
