// What the program is asked for: no argument is standard input, one is a file to run or `--help`.
use crate::tell;
use std::env::FillError;
use std::rt::{Env, Files};
use std::{fs, str};

// An argument is read into so many bytes; a path is shorter.
const LONGEST: usize = 4096;

const USAGE: &str = "usage: bench [FILE]";

const WHAT: &str =
    "Runs the calls in FILE, or on standard input, one to a line, and writes a line of answer for each.";

const LINES: &str =
    "A line is call=NAME and its keys, as `call=open ring=4`. docs/BENCH.md has every call.";

// Where the lines come from.
#[derive(Drop)]
pub(crate) enum Source<F> {
    Standard,
    Opened(F),
}

// The usage, where the arguments are not understood. That it cannot be written is nothing to tell.
fn refused<R: Eprint, F>(rt: &R) -> Option<Source<F>> {
    let _ = eprintln!(rt; "{USAGE}\n{WHAT}\n{LINES}");
    None
}

// Opens a file by its name, and tells where that fails.
fn opened<R: Files + Eprint>(rt: &R, name: &str) -> Option<Source<R::File>> {
    match fs::open(rt, name) {
        Ok(file) => Some(Source::Opened(file)),
        Err(error) => {
            tell(rt, name, error);
            None
        }
    }
}

// What the one argument asks for. A file whose name begins with `-` is named as `./-NAME`.
fn asked<R: Files + Print + Eprint>(rt: &R, word: &str) -> Option<Source<R::File>> {
    if word == "--help" {
        let _ = println!(rt; "{USAGE}\n{WHAT}\n{LINES}");
        return None;
    }
    if word.starts_with('-') {
        return refused(rt);
    }
    opened(rt, word)
}

// What the first argument asks for, where there is no second.
fn first<R: Env + Files + Print + Eprint>(rt: &R) -> Option<Source<R::File>> {
    let mut space = [0u8; LONGEST];
    match rt.arg(1, &mut space) {
        Ok(size) => match str::from_utf8(&space[..size]) {
            Ok(word) => asked(rt, word),
            Err(error) => {
                let _ = eprintln!(rt; "argument: {error}");
                None
            }
        },
        Err(FillError::NotPresent) => Some(Source::Standard),
        Err(FillError::TooLong) => {
            let _ = eprintln!(rt; "argument: File name too long");
            None
        }
    }
}

// Whether there is such an argument; of one that is there no byte is needed.
fn has_argument<R: Env>(rt: &R, number: usize) -> bool {
    !matches!(rt.arg(number, &mut []), Err(FillError::NotPresent))
}

// What the arguments ask for; none where that is no run, or is told.
pub(crate) fn requested<R: Env + Files + Print + Eprint>(rt: &R) -> Option<Source<R::File>> {
    if has_argument(rt, 2) {
        return refused(rt);
    }
    first(rt)
}
