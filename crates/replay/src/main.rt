// Replays a recording from standard input against the starts that stand before it. The input comes in steps through one buffer, in which
// what is left of a line is carried over. The lists have 50,176 bytes in all. Between reading and writing all is the library's work.
#![tactic(auto)]

use readings::BadLine;
use replay_input::Input;
use std::io::{Read, Write};

// The bytes at hand, the starts, their order and their answers.
#[derive(Drop)]
struct Lists {
    buffer: [u8; 4096],
    times: [u64; 1024],
    boards: [u8; 1024],
    work: [u32; 1024],
    answers: [u64; 4096],
}

// All of the input. A proved loop has to end, and nothing says that the input does: no run uses the turns up.
fn take_input<R: Read>(stdin: &mut R, lists: &mut Lists) -> Input {
    let mut input = replay_input::begin_input();
    for _ in 0..u64::MAX {
        let kept = input.kept;
        let got = console::read_input(stdin, &mut lists.buffer[kept..]);
        if got == 0 {
            break;
        }
        input = replay_input::take_step(
            &mut lists.buffer,
            kept + got,
            input,
            &mut lists.times,
            &mut lists.boards,
            &mut lists.work,
            &mut lists.answers,
        );
    }
    input
}

// A buffer full of lines at a time.
fn write_answers<W: Write>(stdout: &mut W, starts: usize, lists: &mut Lists) {
    let mut next = 0;
    while next < starts {
        let put = replay_input::put_answers(&lists.answers, starts, next, &mut lists.buffer);
        console::write_output(stdout, &lists.buffer[..put.bytes]);
        // a line fits, so this goes on; a proved loop has to show that it does
        if put.next <= next {
            return;
        }
        next = put.next;
    }
}

fn write_refused<W: Write>(stdout: &mut W, line: BadLine, out: &mut [u8]) {
    let n = replay_input::put_refused(line.number, out);
    console::write_output(stdout, &out[..n]);
}

// The input has ended: a line for each start, or only the refusal.
fn write_result<W: Write>(stdout: &mut W, input: Input, lists: &mut Lists) {
    let answer = replay_input::end_input(
        input,
        &lists.times,
        &lists.boards,
        &mut lists.work,
        &mut lists.answers,
    );
    match answer {
        Ok(()) => write_answers(stdout, input.stage.starts, lists),
        Err(line) => write_refused(stdout, line, &mut lists.buffer),
    }
}

fn main(rt: HostRuntime) {
    let mut lists = Lists {
        buffer: [0; 4096],
        times: [0; 1024],
        boards: [0; 1024],
        work: [0; 1024],
        answers: [0; 4096],
    };
    let input = take_input(&mut rt.stdin(), &mut lists);
    write_result(&mut rt.stdout(), input, &mut lists);
}
