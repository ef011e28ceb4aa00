// The lines of a text, run one after the other.
ghost use Rattle.std.specs.Prelude.{◌≡◌, ◌≤◌, ◌==◌, length, position};
ghost use Rattle.script.specs.Feed.{fed_text};

use crate::Bench;
use syntax::print::ROOM;

// The bench after some lines, how many bytes of the text they took, and how many were printed.
#[derive(Clone, Copy, Debug, PartialEq, Eq)]
pub struct Fed {
    pub bench: Bench,
    pub taken: usize,
    pub size: usize,
}

// How many bytes stand before a text's first line end; none where it has no line end.
fn line_end(text: &[u8]) -> Option<usize>
    ensures { result ≡ position (λ b. b == 10) text.now }
{
    text.iter().position(|b| *b == b'\n')
}

// Runs the lines of a text that have an end, while there is room for an answer, and puts the answers one behind the other into `out`.
// Ruled out: one that leaves out a line or runs it twice, and one that runs a line that has no end yet.
pub fn feed(start: Bench, memory: &mut [u8], sector: &mut [u8], text: &[u8], out: &mut [u8]) -> Fed
    ensures told { record { result = result; memory = memory.new; sector = sector.new; out = out.new }
        ≡ fed_text start memory.old sector.old text.now out.old }
    ensures taken { result.taken ≤ length text.now }
    ensures size { result.size ≤ length out.new }
{
    let mut bench = start;
    let mut taken = 0;
    let mut size = 0;
    while out.len() - size >= ROOM {
        let rest = &text[taken..];
        let Some(length) = line_end(rest) else {
            break;
        };
        let ran = bench.run(memory, sector, &rest[..length], &mut out[size..]);
        bench = ran.bench;
        size += ran.size;
        taken += length + 1;
    }
    Fed { bench, taken, size }
}
