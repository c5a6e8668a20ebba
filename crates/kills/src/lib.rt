// kill: a signal to one, or to all others. The refusals stand in document 01's order.
#![tactic(auto, using(table::proofs::Chains::chains))]

ghost use Rattle.std.specs.Prelude.{true, false, [], ◌∷◌, ◌≡◌, ◌<◌, OnOk};
ghost use Rattle.arguments.specs.Arguments.{names_everyone};
ghost use Rattle.delivery.specs.Targets.{numbers};
ghost use Rattle.kills.specs.Kills.{first_refusals, Sends, Kills};
ghost use Rattle.outcomes.specs.Verdicts.{settled, verdict};
ghost use Rattle.rules.specs.Calls.{natural, others as others_of};
ghost use Rattle.table.specs.Limits.{signals};
ghost use Rattle.rules.specs.Read.{view};

use arguments::{is_signal, names_everyone, names_group, signal_of};
use callers::named;
use delivery::{deliver, deliver_all, others};
use ending::free_unheld;
use outcomes::{answers, refuse_if};
use table::{Outcome, ProcSlot, Refusal, Table};

// Whether s is a signal, and the number n no group's: the refusals but the last, which is the searches' own.
fn may_kill(n: i32, s: i32) -> Result<(), Refusal>
    ensures verdict { result ≡ verdict (first_refusals n s) }
    ensures signal { OnOk result (natural s < signals) }
{
    refuse_if(!is_signal(s), Refusal::Einval)?;
    refuse_if(names_group(n), Refusal::Enosys)
}

// A signal to the process at a slot.
fn send_one(t: Table, caller: ProcSlot, slot: ProcSlot, s: u8) -> Outcome
    ensures { Sends t caller.0 (slot.0 ∷ []) s result }
{
    let p = t.process(caller);
    answers(free_unheld(deliver(t, p.own, slot, s)), 0)
}

// A signal to the one that a number names.
fn kill_one(t: Table, caller: ProcSlot, n: i32, s: i32) -> Result<Outcome, Refusal>
    ensures { names_everyone n ≡ false → Kills t caller.0 n s (settled t result) }
{
    may_kill(n, s)?;
    let slot = named(t, caller, n).ok_or(Refusal::Esrch)?;
    Ok(send_one(t, caller, slot, signal_of(s)))
}

// A signal to all of a list, the others that the caller sees. (One function for any list, also of one, could not
// promise document 01's delivery: that is shown of a list of one and of this list, by a proof each.)
fn send_all(t: Table, caller: ProcSlot, found: &[ProcSlot], s: u8) -> Outcome
    ensures { numbers found.now ≡ others_of (view t) caller.0
        → Sends t caller.0 (others_of (view t) caller.0) s result }
{
    let sender = t.process(caller);
    answers(free_unheld(deliver_all(t, sender.own, found, s)), 0)
}

// A signal to all that the caller sees but itself and number 1.
fn kill_others(t: Table, caller: ProcSlot, n: i32, s: i32) -> Result<Outcome, Refusal>
    ensures { names_everyone n ≡ true → Kills t caller.0 n s (settled t result) }
{
    may_kill(n, s)?;
    let found = others(&t, caller);
    refuse_if(found.len == 0, Refusal::Esrch)?;
    Ok(send_all(t, caller, &found.slots[..found.len], signal_of(s)))
}

#[inline(never)]
pub fn kill(t: Table, caller: ProcSlot, n: i32, s: i32) -> Result<Outcome, Refusal>
    ensures { Kills t caller.0 n s (settled t result) }
{
    if names_everyone(n) {
        return kill_others(t, caller, n, s);
    }
    kill_one(t, caller, n, s)
}
