// exit and wait: a process ends, and its parent takes it out of the table.
#![tactic(auto, using(table::proofs::Chains::chains))]

ghost use Rattle.std.specs.Prelude.{not, ◌≡◌, ◌<◌, eqb, ltb, IfSome};
ghost use Rattle.outcomes.specs.Verdicts.{settled};
ghost use Rattle.rules.specs.Answers.{granted as granted_as};
ghost use Rattle.rules.specs.Calls.{wait as wait_of};
ghost use Rattle.rules.specs.Freeing.{freed};
ghost use Rattle.table.specs.Fresh.{empty_process};
ghost use Rattle.table.specs.Limits.{process_slots};
ghost use Rattle.table.specs.Slots.{pid_at, is_ended, put};
ghost use Rattle.rules.specs.Read.{view, child_of};
ghost use Rattle.table.specs.Tests.{◌and◌, ◌or◌, any, least};
ghost use Rattle.tree.specs.Tree.{process_found};
ghost use Rattle.waits.specs.Exits.{Exits};

use arguments::exit_status;
use callers::own_level;
use ending::{end_process, free_unheld};
use outcomes::{answers, granted, refuse_if};
use table::{Answer, End, Outcome, Pid, ProcSlot, Process, Refusal, State, Table, empty_process};

// The root init does not end.
#[inline(never)]
pub fn exit(t: Table, caller: ProcSlot, s: i32) -> Result<Outcome, Refusal>
    ensures { Exits t caller.0 s (settled t result) }
{
    refuse_if(caller.0 == 0, Refusal::Ebusy)?;
    let u = end_process(t, caller, End::Exited(exit_status(s)));
    Ok(answers(free_unheld(u), 0))
}

// Whether a process is a child of the one at a slot.
fn is_child(p: &Process, parent: ProcSlot) -> bool
    ensures { result ≡ (not (eqb (pid_at p.now 0) 0) and eqb p.now.parent.0 parent.0) }
{
    p.is_taken() && p.parent == parent
}

fn has_child(t: &Table, parent: ProcSlot) -> bool
    ensures { result ≡ any process_slots (child_of (view t.now) parent.0) }
{
    t.processes.iter().any(|p| is_child(p, parent))
}

// Whether a process is an ended child that comes before the best so far, by its number at a level.
fn comes_first(t: &Table, p: &Process, parent: ProcSlot, level: u8, best: Option<ProcSlot>) -> bool
    requires { IfSome best (λ s. s.0 < process_slots) }
    ensures { result ≡ (not (eqb (pid_at p.now 0) 0) and eqb p.now.parent.0 parent.0 and is_ended p.now.state and (eqb (process_found best) process_slots or ltb (pid_at p.now level) ((view t.now).pid (process_found best) level))) }
{
    if !is_child(p, parent) || !p.has_ended() {
        return false;
    }
    match best {
        None => true,
        Some(slot) => p.pid_at(level) < t.process(slot).pid_at(level),
    }
}

// The ended child with the lowest number at a level.
fn first_ended(t: &Table, parent: ProcSlot, level: u8) -> Option<ProcSlot>
    ensures { process_found result ≡ least (λ i. child_of (view t.now) parent.0 i and (view t.now).ended i) (λ i. (view t.now).pid i level) process_slots process_slots }
{
    let mut best = None;
    for (i, p) in t.processes.iter().enumerate() {
        if comes_first(t, p, parent, level, best) {
            best = Some(ProcSlot(i as u8));
        }
    }
    best
}

// The child at a slot is removed; the answer is its number and how it ended.
fn reap(t: Table, slot: ProcSlot, pid: Pid, how: End) -> Outcome
    ensures { result ≡ granted_as (freed (put t slot.0 empty_process)) (Answer.Reaped pid how) }
{
    let u = t.with_process(slot, empty_process());
    granted(free_unheld(u), Answer::Reaped(pid, how))
}

// Whoever has no child waits for none. Where there are children and none has ended, the answer is 0.
#[inline(never)]
pub fn wait(t: Table, caller: ProcSlot) -> Result<Outcome, Refusal>
    ensures { settled t result ≡ wait_of t caller.0 }
{
    refuse_if(!has_child(&t, caller), Refusal::Echild)?;
    let level = own_level(&t, caller);
    let Some(slot) = first_ended(&t, caller, level) else {
        return Ok(answers(t, 0));
    };
    let child = t.process(slot);
    Ok(match child.state {
        State::Running | State::Stopped => answers(t, 0), // first_ended finds none such
        State::Ended(how) => reap(t, slot, child.pid_at(level), how),
    })
}
