// A session: the table and the open line, carried on from each chunk of the input to the next.
#![tactic(auto, using(table::proofs::Chains::chains))]

ghost use Rattle.std.specs.Prelude.{◌≡◌, List, [], ℕ, suc, ◌≤◌, ◌+◌, ◌*◌, length, drop};
ghost use Rattle.lines.specs.Carried.{Carries, cut};
ghost use Rattle.lines.specs.Runs.{run_all};
ghost use Rattle.lines.specs.Splitting.{ended, last_line};
ghost use Rattle.script.specs.Outputs.{answer_line};
ghost use Rattle.script.specs.Sizes.{answer_bytes};
ghost use Rattle.table.specs.Fresh.{fresh as fresh_table};
ghost use Rattle.session.specs.Places.{left_at, Sought, Called};
ghost use Rattle.session.specs.Sessions.{Wrote, Feeds};

use entry::apply;
use lines::{Line, empty, read, take_line};
use script::{Asked, answer_text, bad_text, put};
use table::{Reply, Table, fresh};

#[derive(Clone, Copy)]
pub struct Session {
    pub table: Table,
    pub line: Line,
}

pub fn start() -> Session
    ensures { (result.table ≡ fresh_table) × Carries result.line [] }
{
    Session {
        table: fresh(),
        line: empty(),
    }
}

// ---- through a chunk, from call to call

// Where the reading of a chunk stands: the call that was found, if one was; the line that was read last, the place
// after it, and how many bytes were written. (The chunk and the buffer are the caller's, in the signatures of `feed`
// and `finish`, and are lent on to each step; `used` counts what stands in that buffer.)
#[derive(Clone, Copy)]
struct Place {
    asked: Option<Asked>,
    line: Line,
    at: usize,
    used: usize,
}

// Reads lines up to the first that is a call, and answers those that are none. (No index is counted: each line says
// where the next begins.)
fn seek(line: Line, from: usize, start: usize, chunk: &[u8], out: &mut [u8]) -> Place
    requires { start + answer_bytes * length (ended [] (drop from chunk.now)) ≤ length out.old }
    ensures { (l : List ℕ) → Carries (cut line) l → Sought [] l chunk.now from start out.old out.new result }
{
    let mut used = start;
    let mut taken = take_line(line, chunk, from);
    while taken.ended {
        let whole = taken.line;
        let at = taken.at;
        let asked = read(whole);
        if asked.is_some() {
            return Place {
                asked,
                line: whole,
                at,
                used,
            };
        }
        used = put(bad_text().as_bytes(), out, used);
        taken = take_line(empty(), chunk, at);
    }
    Place {
        asked: None,
        line: taken.line,
        at: taken.at,
        used,
    }
}

// Answers the call that was found, and reads on.
fn go_on(p: Place, reply: Reply, chunk: &[u8], out: &mut [u8]) -> Place
    requires { p.used + answer_bytes * suc (length (ended [] (drop p.at chunk.now))) ≤ length out.old }
    ensures { Sought (answer_line reply.answer) [] chunk.now p.at p.used out.old out.new result }
{
    let text = answer_text(reply.answer);
    let used = put(text.as_bytes(), out, p.used);
    seek(empty(), p.at, used, chunk, out)
}

// Makes the calls of a chunk one by one, on one table that is lent for each.
fn run_calls(t: &mut Table, p: Place, chunk: &[u8], out: &mut [u8]) -> Place
    requires { p.used + answer_bytes * left_at chunk.now p ≤ length out.old }
    ensures { Called t.old p chunk.now out.old out.new t.new result }
{
    let mut q = p;
    while let Some(asked) = q.asked {
        let r = apply(t, asked.slot, asked.call);
        q = go_on(q, r, chunk, out);
    }
    q
}

// ---- a chunk, and the end

// What a chunk gave: the session then, and how many bytes were written.
#[derive(Clone, Copy)]
pub struct Fed {
    pub session: Session,
    pub used: usize,
}

// Runs the lines that end in a chunk, and writes what they give from the start of `out`. There is room for an answer to
// each.
pub fn feed(s: Session, chunk: &[u8], out: &mut [u8]) -> Fed
    requires { answer_bytes * length (ended [] chunk.now) ≤ length out.old }
    ensures { (l : List ℕ) → Carries (cut s.line) l → Feeds s l chunk.now out.old out.new result }
{
    let mut table = s.table;
    let first = seek(s.line, 0, 0, chunk, out);
    let place = run_calls(&mut table, first, chunk, out);
    Fed {
        session: Session {
            table,
            line: place.line,
        },
        used: place.used,
    }
}

// Runs the last line, if its line feed is missing and there is a byte on it. Gives how many bytes were written.
pub fn finish(s: Session, out: &mut [u8]) -> usize
    requires { answer_bytes ≤ length out.old }
    ensures { (l : List ℕ) → Carries (cut s.line) l → Wrote (run_all s.table (last_line l)).text out.old out.new result }
{
    let line = s.line;
    if line.len == 0 {
        return 0;
    }
    let fed = feed(s, b"\n", out);
    fed.used
}
