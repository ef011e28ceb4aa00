// The bench: lines of calls on standard input or in a file, a line of answer for each on standard output. What a line means, does and prints, and
// that each is run once and in order, is the library's, `script`; this program reads and writes. Its contracts keep the buffers' bounds.
#![tactic(auto)]

mod args;

ghost use Rattle.std.specs.Prelude.{◌≤◌, length, IfOk};

use args::Source;
use script::{Bench, feed};
use std::fmt::InlineText;
use std::io;
use std::io::Read;

// A line has at most 80 bytes; of a longer one 81 are kept, so that it stays too long and never fills the buffer.
const KEPT: usize = 81;

const BUFFER: usize = 65536;

// The longest reason of the system's that is told whole.
const REASON: usize = 256;

// Tells what failed and why, as `read: Is a directory`; the number that the library puts behind the system's words is left out. That standard error
// cannot be written is nothing to tell.
fn tell<R: Eprint>(rt: &R, what: &str, error: io::Error) {
    let text = InlineText::<REASON>::of(error);
    let words = text.as_str();
    let reason = words
        .split_once(" (os error ")
        .map_or(words, |(before, _)| before);
    let _ = eprintln!(rt; "{what}: {reason}");
}

// What keeps a run from its end.
#[derive(Drop)]
enum Failure {
    Read(io::Error),
    Write(io::Error),
}

// The bench with its buffers: the ring's memory, the sector and the answers.
#[derive(Drop)]
struct Runner {
    bench: Bench,
    memory: [u8; 64000],
    sector: [u8; sector::LENGTH],
    output: [u8; BUFFER],
}

impl Runner {
    fn new() -> Runner {
        Runner {
            bench: Bench::start(),
            memory: [0; 64000],
            sector: [0; sector::LENGTH],
            output: [0; BUFFER],
        }
    }

    // Runs every line of the input that has an end, as many at a time as the output has room for, and writes their answers. What follows the last of them
    // begins at the place that it gives.
    fn run_lines<R: Print>(&mut self, rt: &R, input: &[u8]) -> Result<usize, Failure>
        ensures { IfOk result (λ at. at ≤ length input.now) }
    {
        let mut at = 0;
        loop {
            let fed = feed(
                self.bench,
                &mut self.memory,
                &mut self.sector,
                &input[at..],
                &mut self.output,
            );
            self.bench = fed.bench;
            put(rt, &self.output[..fed.size])?;
            if fed.taken == 0 {
                return Ok(at);
            }
            at += fed.taken;
        }
    }

    // Runs what the input ends with, if it is a line with no end.
    fn run_last<R: Print>(&mut self, rt: &R, line: &[u8]) -> Result<(), Failure> {
        if line.is_empty() {
            return Ok(());
        }
        let ran = self
            .bench
            .run(&mut self.memory, &mut self.sector, line, &mut self.output);
        put(rt, &self.output[..ran.size])
    }

    // Reads the input to its end in such a buffer, and runs its lines.
    // A proved loop has to end, and nothing says that the input does: the reads are counted, up to a number that no run comes to.
    fn run<R: Print, I: Read>(
        &mut self,
        rt: &R,
        from: &mut I,
        input: &mut [u8; BUFFER],
    ) -> Result<(), Failure> {
        let mut kept = 0;
        for _ in 0..u64::MAX {
            let end = kept + read(from, &mut input[kept..])?;
            if end == kept {
                break;
            }
            let rest = self.run_lines(rt, &input[..end])?;
            kept = keep(input, rest, end);
        }
        self.run_last(rt, &input[..kept])
    }
}

// Writes answers.
fn put<R: Print>(rt: &R, output: &[u8]) -> Result<(), Failure> {
    rt.write_all(output).map_err(Failure::Write)
}

// Reads once, and gives how many bytes came: none where the input has ended.
fn read<I: Read>(from: &mut I, input: &mut [u8]) -> Result<usize, Failure>
    ensures { IfOk result (λ got. got ≤ length input.new) }
{
    from.read(input).map_err(Failure::Read)
}

// Moves what was read of a line with no end yet to the front, and gives its length.
fn keep(input: &mut [u8], rest: usize, end: usize) -> usize
    requires rest_le_end { rest ≤ end }
    requires end_in_bounds { end ≤ length input.old }
    ensures { result ≤ 81 }
{
    let size = KEPT.min(end - rest);
    input.copy_within(rest..rest + size, 0);
    size
}

// Runs the lines of an input, and tells what failed of it. What came of a line before a read failed is not one.
fn run<R: Print + Eprint, I: Read>(rt: &R, from: &mut I) {
    let mut runner = Runner::new();
    let mut input = [0u8; BUFFER];
    match runner.run(rt, from, &mut input) {
        Ok(()) => {}
        Err(Failure::Read(error)) => tell(rt, "read", error),
        Err(Failure::Write(error)) => tell(rt, "write", error),
    }
}

fn main(rt: HostRuntime) {
    match args::requested(&rt) {
        None => {}
        Some(Source::Standard) => run(&rt, &mut rt.stdin()),
        Some(Source::Opened(mut file)) => run(&rt, &mut file),
    }
}
