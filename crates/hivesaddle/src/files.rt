// A file read, walked and written.
ghost use Rattle.std.specs.Prelude.{◌≡◌, [], ◌∷◌};
ghost use Rattle.reader.specs.Verdict.{values_of, verdict_in, no_record};
ghost use Rattle.walk.specs.Walk as walk;
ghost use Rattle.writer.specs.LaidOut.{description};
ghost use Rattle.hivesaddle.specs.Output.{verdict_said, PrefixOut, FileOut, walk_said, WalkOut, WriteOut};
ghost use Rattle.hivesaddle.specs.Private.{said_by, saying, values_with};

use crate::replies::{Reply, put_reply};
use incremental::{Refusal, Stop};
use reader::{Acceptance, RunTimes};
use walk::Visits;
use writer::Contents;

// The values of a verdict: a refusal's number, index and offset, or the bytes wanted, or a record; zeros for what it has not.
fn reply_of(
    kind: u32,
    number: u32,
    index: usize,
    at: usize,
    wanted: usize,
    a: Acceptance,
) -> Reply<22>
    ensures { said_by result ≡ verdict_said (values_with kind number index at wanted a) }
{
    let t = a.times;
    Reply::new(
        kind,
        [
            number as u64,
            index as u64,
            wanted as u64,
            a.version as u64,
            a.declared_size as u64,
            a.name_units as u64,
            a.stored_hash as u64,
            t.latest,
            a.run_count as u64,
            a.metrics_count as u64,
            a.trace_count as u64,
            a.volume_count as u64,
            a.chain_count as u64,
            at as u64,
            t.count as u64,
            t.second,
            t.third,
            t.fourth,
            t.fifth,
            t.sixth,
            t.seventh,
            t.eighth,
        ],
    )
}

// The record of an answer that is no acceptance.
fn no_record() -> Acceptance
    ensures { result ≡ no_record }
{
    let none = RunTimes {
        count: 0,
        latest: 0,
        second: 0,
        third: 0,
        fourth: 0,
        fifth: 0,
        sixth: 0,
        seventh: 0,
        eighth: 0,
    };
    Acceptance {
        version: 0,
        declared_size: 0,
        name_units: 0,
        stored_hash: 0,
        times: none,
        run_count: 0,
        metrics_count: 0,
        trace_count: 0,
        volume_count: 0,
        chain_count: 0,
    }
}

fn verdict_reply(v: Result<Acceptance, Stop>) -> Reply<22>
    ensures { said_by result ≡ verdict_said (values_of v) }
{
    match v {
        Ok(a) => reply_of(0, 0, 0, 0, 0, a),
        Err(Stop::Refused(r)) => reply_of(1, r.number, r.index, r.offset, 0, no_record()),
        Err(Stop::Wanted(k)) => reply_of(2, 0, 0, 0, k, no_record()),
    }
}

// A verdict that makes no request.
fn full_reply(v: Result<Acceptance, Refusal>) -> Reply<22>
    ensures { said_by result ≡ verdict_said (values_of (verdict_in v)) }
{
    match v {
        Ok(a) => verdict_reply(Ok(a)),
        Err(r) => verdict_reply(Err(Stop::Refused(r))),
    }
}

// The verdict on a prefix: 0 accepted, 1 refused, 2 more bytes wanted.
pub fn hs_read_prefix(file: &[u8], predecessors: &mut [u32], out: &mut [u64]) -> u32
    ensures { PrefixOut file.now predecessors.old result predecessors.new out.old out.new }
{
    let v = reader::read_prefix(file, predecessors);
    put_reply(verdict_reply(v), out)
}

// The verdict on a whole file.
pub fn hs_read_file(file: &[u8], predecessors: &mut [u32], out: &mut [u64]) -> u32
    ensures { FileOut file.now predecessors.old result predecessors.new out.old out.new }
{
    let v = reader::read_file(file, predecessors);
    let reply = full_reply(v);
    put_reply(reply, out)
}

// The writer of test files: 0 written, 1 refused; `out` as the readers'.
pub fn hs_write_file(
    version: u32,
    name: &[u16],
    stored_hash: u32,
    run_time: u64,
    run_count: u32,
    metrics: &[u32],
    trace: &[u32],
    strings: &[u8],
    volumes: &[u8],
    volume_count: u32,
    predecessors: &mut [u32],
    output: &mut [u8],
    out: &mut [u64],
) -> u32
    ensures { WriteOut version (description name.now stored_hash run_time run_count metrics.now trace.now
        strings.now volumes.now volume_count) predecessors.old output.old result predecessors.new
        output.new out.old out.new }
{
    let contents = Contents {
        name,
        stored_hash,
        run_time,
        run_count,
        metrics,
        trace,
        strings,
        volumes,
        volume_count,
    };
    let v = writer::write_file(version, contents, predecessors, output);
    put_reply(full_reply(v), out)
}

// A refusal's number, index and offset, and a walk's steps and total; zeros for what the answer has not.
fn steps_reply(kind: u32, number: u64, index: u64, offset: u64, steps: u64, total: u64) -> Reply<5>
    ensures { said_by result ≡ saying kind (number ∷ index ∷ offset ∷ steps ∷ total ∷ []) }
{
    Reply::new(kind, [number, index, offset, steps, total])
}

fn walk_reply(answer: Result<Visits, Refusal>) -> Reply<5>
    ensures { said_by result ≡ walk_said (walk.values_of answer) }
{
    match answer {
        Ok(visits) => steps_reply(0, 0, 0, 0, visits.steps as u64, visits.total),
        Err(r) => steps_reply(1, r.number as u64, r.index as u64, r.offset as u64, 0, 0),
    }
}

// The walk over all chains of a file: 0 walked, 1 refused.
pub fn hs_walk(file: &[u8], predecessors: &mut [u32], order: &mut [u32], out: &mut [u64]) -> u32
    ensures { WalkOut file.now predecessors.old order.old result predecessors.new order.new
        out.old out.new }
{
    let answer = walk::walk(file, predecessors, order);
    put_reply(walk_reply(answer), out)
}
