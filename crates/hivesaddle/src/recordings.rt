// The replay of a recording, and the table at year's end.
ghost use Rattle.std.specs.Prelude.{◌≡◌};
ghost use Rattle.readings.specs.Replay.{said_of};
ghost use Rattle.hivesaddle.specs.Output.{ReplayOut, progress_of, BeginOut, FeedOut, FinishOut, YearOut};
ghost use Rattle.hivesaddle.specs.Private.{said_by, rows_said};

use crate::replies::{Reply, put_reply};
use readings::{BadLine, Progress};
use year::YearRefusal;

// The number of a refused recording, and the line's where none is bad.
const BAD_LINE: u32 = 22;

const NO_LINE: u64 = 0;

fn replay_reply(answer: Result<(), BadLine>) -> Reply<1>
    ensures { said_by result ≡ said_of answer }
{
    match answer {
        Ok(()) => Reply::new(0, [NO_LINE]),
        Err(line) => Reply::new(BAD_LINE, [line.number]),
    }
}

// The best reading for each start: 0, or 22 and the number of the first bad line.
pub fn hs_replay(
    recording: &[u8],
    times: &[u64],
    boards: &[u8],
    work: &mut [u32],
    answers: &mut [u64],
    out: &mut [u64],
) -> u32
    ensures { ReplayOut recording.now times.now boards.now work.old answers.old result
        work.new answers.new out.old out.new }
{
    let answer = readings::replay(recording, times, boards, work, answers);
    put_reply(replay_reply(answer), out)
}

// Before the first piece of a recording: the starts served are put in order, and their answers are none.
pub fn hs_replay_begin(
    times: &[u64],
    boards: &[u8],
    work: &mut [u32],
    answers: &mut [u64],
    out: &mut [u64],
) -> u32
    ensures { BeginOut times.now boards.now work.old answers.old result work.new
        answers.new out.old out.new }
{
    let begun = readings::begin(times, boards, work, answers);
    let p = begun.progress;
    put_reply(Reply::new(0, [p.lines, p.bad, begun.served as u64]), out)
}

// A piece, behind the bytes of the one before that were not used.
pub fn hs_replay_feed(
    lines: u64,
    bad: u64,
    piece: &[u8],
    times: &[u64],
    boards: &[u8],
    work: &[u32],
    answers: &mut [u64],
    out: &mut [u64],
) -> u32
    ensures { FeedOut (progress_of lines bad) piece.now times.now boards.now work.now
        answers.old result answers.new out.old out.new }
{
    let fed = readings::feed(Progress { lines, bad }, piece, times, boards, work, answers);
    let p = fed.progress;
    put_reply(Reply::new(0, [p.lines, p.bad, fed.used as u64]), out)
}

// After the last piece, where so many bytes were not used: 0, or 22 and the number of the first bad line.
pub fn hs_replay_finish(
    lines: u64,
    bad: u64,
    waiting: u64,
    times: &[u64],
    boards: &[u8],
    work: &mut [u32],
    answers: &mut [u64],
    out: &mut [u64],
) -> u32
    ensures { FinishOut (progress_of lines bad) waiting times.now boards.now work.old answers.old result
        work.new answers.new out.old out.new }
{
    let p = Progress { lines, bad };
    let ended = readings::finish(p, waiting as usize, times, boards, work, answers);
    put_reply(replay_reply(ended), out)
}

fn year_reply(answer: Result<usize, YearRefusal>) -> Reply<2>
    ensures { said_by result ≡ rows_said answer }
{
    match answer {
        Ok(count) => Reply::new(0, [0, count as u64]),
        Err(refusal) => Reply::new(refusal.fault.number(), [refusal.place as u64, 0]),
    }
}

// The table at year's end: 0, or refusal 18, 24 or 26.
pub fn hs_year_table(
    lines: &[u8],
    hashes: &[u32],
    answers: &[u64],
    rows: &mut [u64],
    out: &mut [u64],
) -> u32
    ensures { YearOut lines.now hashes.now answers.now result rows.old rows.new out.old
        out.new }
{
    let answer = year::year_rows(lines, hashes, answers, rows);
    put_reply(year_reply(answer), out)
}
