// handle and poll: what a process does with its signals.
#![tactic(auto, using(table::proofs::Chains::chains))]

ghost use Rattle.std.specs.Prelude.{◌≡◌, ◌<◌};
ghost use Rattle.outcomes.specs.Verdicts.{settled};
ghost use Rattle.rules.specs.Calls.{handle_on, handle_off, handle as handle_of, poll as poll_of};
ghost use Rattle.table.specs.Limits.{signals};
ghost use Rattle.table.specs.Tests.{when◌then◌else◌};

use arguments::{cannot_handle, signal_of};
use outcomes::{answers, refuse_if};
use signals::{lowest_signal, with_signal, without_signal};
use table::{Outcome, ProcSlot, Process, Refusal, Table};

// A process that handles a signal, or no longer does: then a pending one is dropped.
fn handling(p: Process, s: u8, on: bool) -> Process
    requires { s < signals }
    ensures { result ≡ (when on then handle_on p s else handle_off p s) }
{
    let x = p.traits;
    let traits = if on {
        x.with_signals(with_signal(x.handled, s), x.pending)
    } else {
        x.with_signals(without_signal(x.handled, s), without_signal(x.pending, s))
    };
    Process { traits, ..p }
}

// handle s on or off. (`step` has seen that the caller runs, so its slot is one of the table's.)
#[inline(never)]
pub fn handle(t: Table, caller: ProcSlot, s: i32, on: bool) -> Result<Outcome, Refusal>
    ensures { settled t result ≡ handle_of t caller.0 s on }
{
    refuse_if(cannot_handle(s), Refusal::Einval)?;
    let p = t.process(caller);
    let q = handling(p, signal_of(s), on);
    Ok(answers(t.with_process(caller, q), 0))
}

// poll refuses nothing: where no signal is pending the answer is 0.
#[inline(never)]
pub fn poll(t: Table, caller: ProcSlot) -> Outcome
    ensures { result ≡ poll_of t caller.0 }
{
    let p = t.process(caller);
    let x = p.traits;
    let Some(s) = lowest_signal(x.pending) else {
        return answers(t, 0);
    };
    let traits = x.with_signals(x.handled, without_signal(x.pending, s));
    let q = Process { traits, ..p };
    answers(t.with_process(caller, q), u16::from(s))
}
