// A script from a reader, chunk by chunk, and its answers to a writer.
ghost use Rattle.std.specs.Prelude.{List, ℕ, ◌≤◌, length, OnOk};
ghost use Rattle.std.specs.Io.{ReadsAtMost};
ghost use Rattle.std.specs.Io.KnownBytes.{IsAtEnd, ReadConsumes};
ghost use Rattle.recorder.specs.Running.{Answers, GoesOn, WritesFirst, WritesAll};
ghost use Rattle.recorder.specs.Standing.{Stands};

use crate::faults::{Stopped, may_retry, write_out};
use script::ANSWER_BYTES;
use session::{Session, feed, finish, start};
use std::io::{Read, Write};

// So many bytes are read at once.
const CHUNK: usize = 2048;

// They end at most as many lines, and there is room for that many answers.
const OUT: usize = CHUNK * ANSWER_BYTES;

// Runs the lines that end in a chunk, and writes what they give. Gives the session after it.
fn run_chunk<W: Write>(
    rt: &HostRuntime,
    chunk: &[u8],
    to: &mut W,
    s: Session,
) -> Result<Session, Stopped>
    requires { length chunk.now ≤ CHUNK }
    ensures { (input text : List ℕ) → Stands input text s
        → Answers input text chunk.now (W.contents to.old) (W.contents to.new) result }
{
    let mut out = [0u8; OUT];
    let fed = feed(s, chunk, &mut out);
    write_out(rt, to, &out[..fed.used])?;
    Ok(fed.session)
}

// Reads some bytes, and says how many: none are the end of the input. As in `write_out`, no run uses up the turns.
fn read_some<R: Read>(
    rt: &HostRuntime,
    from: &mut R,
    source: &[u8],
    chunk: &mut [u8],
) -> Result<usize, Stopped>
    ensures bound { ReadsAtMost result chunk.new }
    ensures bytes { ReadConsumes (R.remaining from.old) (R.remaining from.new) result chunk.new }
{
    for _ in 0..u64::MAX {
        match from.read(chunk) {
            Ok(n) => return Ok(n),
            Err(e) => may_retry(rt, source, &e)?,
        }
    }
    Err(Stopped)
}

// Reads and runs chunks up to the end of the input, or to an error. Gives the session at the end.
#[tactic(auto, using(crate::proofs::Going::begins, crate::proofs::Going::goes_further))]
fn read_all<R: Read, W: Write>(
    rt: &HostRuntime,
    from: &mut R,
    source: &[u8],
    to: &mut W,
) -> Result<Session, Stopped>
    ensures goes_on { GoesOn (R.remaining from.old) (R.remaining from.new)
        (W.contents to.old) (W.contents to.new) result }
    ensures at_end { OnOk result (IsAtEnd (R.remaining from.new)) }
{
    let mut session = start();
    let mut chunk = [0u8; CHUNK];
    for _ in 0..u64::MAX {
        let n = read_some(rt, from, source, &mut chunk)?;
        if n == 0 {
            return Ok(session);
        }
        session = run_chunk(rt, &chunk[..n], to, session)?;
    }
    Err(Stopped)
}

// Runs a whole script. (The reader and its name go through to `read_some`, and the writer to `write_out`: two borrows
// of types that the caller picks, which a struct would only carry.) After an error the open line is not run: nobody
// knows how it would have gone on.
#[tactic(auto, using(crate::proofs::Ending::end_laws))]
pub(crate) fn run<R: Read, W: Write>(
    rt: &HostRuntime,
    from: &mut R,
    source: &[u8],
    to: &mut W,
) -> Result<(), Stopped>
    ensures whole { OnOk result (WritesAll (R.remaining from.old) (W.contents to.old) (W.contents to.new)) }
    ensures first { WritesFirst (R.remaining from.old) (W.contents to.old) (W.contents to.new) }
{
    let s = read_all(rt, from, source, to)?;
    let mut out = [0u8; ANSWER_BYTES];
    let used = finish(s, &mut out);
    write_out(rt, to, &out[..used])
}
