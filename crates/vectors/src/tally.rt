// The count of the checks, and what is written to standard output.
use std::fmt::Display;
use std::rt::Stdout;

// The checks made, those of them that failed, and where each is told. A line that cannot be written is missing from what was written, which
// whoever runs the program compares; the checks go on.
#[derive(Drop)]
pub(crate) struct Tally {
    out: Stdout,
    checks: u64,
    failed: u64,
}

impl Tally {
    pub(crate) fn new(out: Stdout) -> Self {
        Tally {
            out,
            checks: 0,
            failed: 0,
        }
    }

    pub(crate) fn text(&self, words: impl Display + Drop) {
        let _ = self.out.print(words);
    }

    // Writes the check's words and how it came out, and counts it.
    pub(crate) fn check(&mut self, words: impl Display + Drop, ok: bool) {
        self.checks = self.checks.wrapping_add(1);
        self.text(words);
        if ok {
            self.text(" ok");
        } else {
            self.text(" FAILED");
            self.failed = self.failed.wrapping_add(1);
        }
    }

    // The last line.
    pub(crate) fn print(&self) {
        let Tally { checks, failed, .. } = self;
        self.text(format_args!("{checks} checks, {failed} failed\n"));
    }
}
