// An input that comes in chunks, cut into lines.
#![tactic(auto)]

ghost use Rattle.std.specs.Prelude.{◌≡◌, List, [], ◌++◌, ℕ, take};
ghost use Rattle.lines.specs.Carried.{Carries, cut as cut_line, Took};
ghost use Rattle.script.specs.Reading.{read_line};

use script::{Asked, LINE_BYTES, first_place, parse, put};

// What is kept of a line is one byte more than a line may have: enough to see that it is too long.
const CARRIED: usize = LINE_BYTES + 1;

// The first bytes of a line. It is no `ArrayVec`: `take_line` also takes a line whose length says more than there is
// room for, of which `cut` in its clause speaks (must-fail/keeps_a_length_of_66.edit).
#[derive(Clone, Copy)]
pub struct Line {
    pub bytes: [u8; CARRIED],
    pub len: usize,
}

pub fn empty() -> Line
    ensures { Carries result [] }
{
    Line {
        bytes: [0; CARRIED],
        len: 0,
    }
}

// The line with more bytes. A length above CARRIED counts as CARRIED, and what there is no room for is dropped.
fn append(line: Line, more: &[u8]) -> Line
    ensures { (l : List ℕ) → Carries (cut_line line) l → Carries result (l ++ more.now) }
{
    let at = line.len.min(CARRIED);
    let fits = more.len().min(CARRIED - at);
    let mut bytes = line.bytes;
    let len = put(&more[..fits], &mut bytes, at);
    Line { bytes, len }
}

// What a part of a chunk gave: the line, whether it ended, and the place after it. The place is told of an open line
// too, so that `at` is no Option in place of `ended`.
#[derive(Clone, Copy)]
pub struct Taken {
    pub line: Line,
    pub ended: bool,
    pub at: usize,
}

// Takes bytes of a chunk in, from a place on, up to the end of the line that is open.
pub fn take_line(line: Line, chunk: &[u8], from: usize) -> Taken
    ensures { (l : List ℕ) → Carries (cut_line line) l → Took l chunk.now from result }
{
    let start = from.min(chunk.len());
    let rest = &chunk[start..];
    match first_place(rest, b'\n') {
        Some(n) => Taken {
            line: append(line, &rest[..n]),
            ended: true,
            at: start + n + 1,
        },
        None => Taken {
            line: append(line, rest),
            ended: false,
            at: from.max(chunk.len()),
        },
    }
}

// Reads a line that is carried: as if it stood there whole, as `carried_read` of proofs/Carrying.antt shows.
pub fn read(line: Line) -> Option<Asked>
    ensures { result ≡ read_line (take line.len line.bytes) }
{
    let n = line.len;
    if n > LINE_BYTES {
        return None;
    }
    let bytes = line.bytes;
    parse(&bytes[..n])
}
