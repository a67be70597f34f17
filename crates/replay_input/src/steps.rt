// The program's input in steps: the starts, and then the recording. What is left of a line waits at the front of the buffer.
ghost use Rattle.std.specs.Prelude.{◌≡◌, ◌-◌, ◌≤◌, min, true, length};
ghost use Rattle.lines.specs.Lines.{leading};
ghost use Rattle.replay_input.specs.Starts.{room};
ghost use Rattle.replay_input.specs.Program.{nothing_read, recording_taken, starts_taken, bytes_taken, brought_forward, Steps, Ends};
ghost use Rattle.replay_input.specs.Private.{StartsFit, TakesBytes, RecordingBegins};

use crate::{START_BYTES, take_starts};
use readings::{BadLine, Fed, Progress};

// How many starts have been taken and whether more may come, and how far the recording is. No enum: both parts count the starts and the
// lines, and it would leave out some of the numbers that the promises are for.
#[derive(Clone, Copy)]
pub struct Stage {
    pub starts: usize,
    pub starting: bool,
    pub progress: Progress,
}

// The stage, and how many bytes wait at the front of the buffer.
#[derive(Clone, Copy)]
pub struct Input {
    pub stage: Stage,
    pub kept: usize,
}

// The stage after some bytes, and how many of them need not come again.
#[derive(Clone, Copy)]
pub struct Took {
    pub stage: Stage,
    pub used: usize,
}

// Before the first step.
pub fn begin_input() -> Input
    ensures { result ≡ nothing_read }
{
    Input {
        stage: Stage {
            starts: 0,
            starting: true,
            progress: Progress { lines: 0, bad: 0 },
        },
        kept: 0,
    }
}

// The recording begins with some bytes, behind so many lines.
fn begin_recording(
    bytes: &[u8],
    lines: u64,
    times: &[u64],
    boards: &[u8],
    work: &mut [u32],
    answers: &mut [u64],
) -> Fed
    ensures { RecordingBegins lines bytes.now times.now boards.now work.old answers.old result
        work.new answers.new }
{
    readings::begin(times, boards, work, answers);
    let p = Progress { lines, bad: 0 };
    readings::feed(p, bytes, times, boards, work, answers)
}

// More starts may come behind so many, which take so many lines and bytes.
fn still_starting(starts: usize, lines: u64, used: usize) -> Took
    ensures { result ≡ record { stage = record { starts = starts; starting = true; progress = record { lines = lines; bad = 0 } }; used = used } }
{
    Took {
        stage: Stage {
            starts,
            starting: true,
            progress: Progress { lines, bad: 0 },
        },
        used,
    }
}

// Bytes where more starts may come.
#[tactic(auto, using(crate::proofs::Taking::starts_wait))]
fn take_starting(
    bytes: &[u8],
    stage: Stage,
    times: &mut [u64],
    boards: &mut [u8],
    work: &mut [u32],
    answers: &mut [u64],
) -> Took
    requires { StartsFit stage.starts times.old boards.old }
    ensures { TakesBytes
        (starts_taken (leading 18 (room stage.starts times.old boards.old) bytes.now) stage.starts
        stage.progress.lines bytes.now times.old boards.old work.old answers.old)
        result times.new boards.new work.new answers.new }
{
    let k = take_starts(bytes, stage.starts, times, boards);
    let starts = stage.starts + k;
    let at = START_BYTES * k;
    let lines = stage.progress.lines.wrapping_add(k as u64);
    if bytes.len() - at < START_BYTES {
        return still_starting(starts, lines, at);
    }
    let fed = begin_recording(
        &bytes[at..],
        lines,
        &times[..starts],
        &boards[..starts],
        work,
        answers,
    );
    Took {
        stage: Stage {
            starts,
            starting: false,
            progress: fed.progress,
        },
        used: at + fed.used,
    }
}

// Bytes of the recording.
fn take_recording(
    bytes: &[u8],
    stage: Stage,
    times: &[u64],
    boards: &[u8],
    work: &[u32],
    answers: &mut [u64],
) -> Took
    requires { StartsFit stage.starts times.now boards.now }
    ensures { TakesBytes
        (recording_taken stage.starts stage.progress bytes.now times.now boards.now work.now
        answers.old)
        result times.now boards.now work.now answers.new }
{
    let starts = stage.starts;
    let fed = readings::feed(
        stage.progress,
        bytes,
        &times[..starts],
        &boards[..starts],
        work,
        answers,
    );
    Took {
        stage: Stage {
            starts,
            starting: false,
            progress: fed.progress,
        },
        used: fed.used,
    }
}

// The bytes at hand, those that waited first.
fn take_bytes(
    bytes: &[u8],
    stage: Stage,
    times: &mut [u64],
    boards: &mut [u8],
    work: &mut [u32],
    answers: &mut [u64],
) -> Took
    requires { StartsFit stage.starts times.old boards.old }
    ensures { TakesBytes
        (bytes_taken stage bytes.now times.old boards.old work.old answers.old) result
        times.new boards.new work.new answers.new }
{
    if stage.starting {
        return take_starting(bytes, stage, times, boards, work, answers);
    }
    take_recording(bytes, stage, times, boards, work, answers)
}

// What was not used comes to the front: how many bytes that is.
fn carry_over(buffer: &mut [u8], used: usize, end: usize) -> usize
    requires { (used ≤ end) × (end ≤ length buffer.old) }
    ensures { (result ≡ end - used) × (buffer.new ≡ brought_forward buffer.old used end) }
{
    let rest = end - used;
    for k in 0..rest {
        buffer[k] = buffer[used + k];
    }
    rest
}

// The starts that there are places for.
fn fitting(stage: Stage, times: usize, boards: usize) -> Stage
    ensures { result ≡ record { starts = min stage.starts (min times boards); starting = stage.starting; progress = stage.progress } }
{
    Stage {
        starts: stage.starts.min(times.min(boards)),
        ..stage
    }
}

// One step: the bytes that came stand in the buffer behind those that wait, up to `end`.
pub fn take_step(
    buffer: &mut [u8],
    end: usize,
    input: Input,
    times: &mut [u64],
    boards: &mut [u8],
    work: &mut [u32],
    answers: &mut [u64],
) -> Input
    ensures { Steps buffer.old end input times.old boards.old work.old answers.old result
        buffer.new times.new boards.new work.new answers.new }
{
    let upto = end.min(buffer.len());
    let stage = fitting(input.stage, times.len(), boards.len());
    let took = take_bytes(&buffer[..upto], stage, times, boards, work, answers);
    let kept = carry_over(buffer, took.used, upto);
    Input {
        stage: took.stage,
        kept,
    }
}

// The input has ended: the answers for the starts, or the refusal. Where more starts could come, the recording has no line.
pub fn end_input(
    input: Input,
    times: &[u64],
    boards: &[u8],
    work: &mut [u32],
    answers: &mut [u64],
) -> Result<(), BadLine>
    ensures { Ends input times.now boards.now work.old answers.old result work.new
        answers.new }
{
    let ended = fitting(input.stage, times.len(), boards.len());
    let starts = ended.starts;
    let times = &times[..starts];
    let boards = &boards[..starts];
    if ended.starting {
        readings::begin(times, boards, work, answers);
    }
    readings::finish(ended.progress, input.kept, times, boards, work, answers)
}
