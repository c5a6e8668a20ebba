// Reads and writes that fail: which are tried again, and what is said of the others.
ghost use Rattle.std.specs.Prelude.{OnOk};
ghost use Rattle.std.specs.Io.{WritesAtMost};
ghost use Rattle.std.specs.Io.KnownBytes.{Appends, WriteAppends};
ghost use Rattle.recorder.specs.Writing.{TookFirst};

use std::io::{ErrorKind, Print, Write};
use std::time::Duration;
use std::{io, thread};

// Nothing more is done, and standard error was told why.
#[derive(Clone, Copy)]
pub(crate) struct Stopped;

// Lets a millisecond pass.
fn pause(rt: &HostRuntime) {
    thread::sleep(rt, Duration::from_millis(1));
}

// ---- what is told on standard error

// Writes a part of a message. Nobody is left to be told where that fails, and the next part is tried all the same.
pub(crate) fn tell(rt: &HostRuntime, part: &[u8]) {
    let _ = Print::write_all(&rt.stderr(), part);
}

// The system's words for an error: std puts the error's number in brackets behind them.
fn words(text: &str) -> &str {
    match text.split_once(" (os error ") {
        Some((words, _)) => words,
        None => text,
    }
}

fn tell_reason(rt: &HostRuntime, error: &io::Error) {
    match error.to_string(rt.alloc()) {
        Ok(text) => tell(rt, words(text.as_str()).as_bytes()),
        // There is no memory for the text, and it is told with the number.
        Err(_) => {
            let _ = rt.eprint(error);
        }
    }
}

// Writes a line: what failed, as the caller names it, a colon and the reason.
pub(crate) fn fail(rt: &HostRuntime, what: &[u8], error: &io::Error) -> Stopped {
    tell(rt, what);
    tell(rt, b": ");
    tell_reason(rt, error);
    tell(rt, b"\n");
    Stopped
}

// ---- what is tried again

// A read or a write that has just failed may be tried again where a signal interrupted it, or where it would have had
// to wait. Of any other it says why it failed.
pub(crate) fn may_retry(rt: &HostRuntime, what: &[u8], error: &io::Error) -> Result<(), Stopped> {
    match error.kind() {
        ErrorKind::Interrupted => Ok(()),
        ErrorKind::WouldBlock => {
            pause(rt);
            Ok(())
        }
        _ => Err(fail(rt, what, error)),
    }
}

// Writes some of `out`, maybe nothing yet, and says how many bytes.
fn write_some<W: Write>(rt: &HostRuntime, to: &mut W, out: &[u8]) -> Result<usize, Stopped>
    ensures bound { WritesAtMost result out.now }
    ensures bytes { WriteAppends (W.contents to.old) (W.contents to.new) result out.now }
{
    match to.write(out) {
        Ok(n) => {
            if n == 0 {
                pause(rt);
            }
            Ok(n)
        }
        Err(e) => {
            may_retry(rt, b"recorder: standard output", &e)?;
            Ok(0)
        }
    }
}

// Writes all of `out`. A proved loop has to end, and nothing says that a reader ever makes room: it has more turns than
// any run uses up.
pub(crate) fn write_out<W: Write>(rt: &HostRuntime, to: &mut W, out: &[u8]) -> Result<(), Stopped>
    ensures whole { OnOk result (Appends (W.contents to.old) (W.contents to.new) out.now) }
    ensures first { TookFirst (W.contents to.old) (W.contents to.new) out.now }
{
    let mut rest = out;
    for _ in 0..u64::MAX {
        if rest.is_empty() {
            return Ok(());
        }
        let n = write_some(rt, to, rest)?;
        rest = &rest[n..];
    }
    Err(Stopped)
}
