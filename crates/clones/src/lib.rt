// clone, plain and new: a child is born, if it is not refused, in document 01's order.
#![tactic(auto)]

ghost use Rattle.std.specs.Prelude.{◌≡◌};
ghost use Rattle.outcomes.specs.Verdicts.{settled};
ghost use Rattle.rules.specs.Calls.{born as born_of, clone as clone_of, clone_new as clone_new_of};
ghost use Rattle.rules.specs.Pids.{free_slot};
ghost use Rattle.rules.specs.Read.{view};

use births::{birth, new_namespace};
use callers::{may_make, own_level};
use numbers::next_pid;
use outcomes::refuse_if;
use table::{Answer, Outcome, ProcSlot, Refusal, Reply, Table};
use tree::{free_namespace_slot, free_slot};

// A child is born: t is the table before, u the one with the child at a slot. The answer is its number in the caller's
// namespace, and the host is told its slot.
fn born(t: &Table, caller: ProcSlot, slot: ProcSlot, u: Table) -> Outcome
    ensures { slot.0 ≡ free_slot (view t.now) → result ≡ born_of t.now caller.0 u }
{
    let p = t.process(caller);
    let pid = next_pid(t, p.own);
    Outcome {
        reply: Reply {
            answer: Answer::Number(pid.0),
            child: slot,
        },
        table: u,
    }
}

#[inline(never)]
pub fn clone(t: Table, caller: ProcSlot) -> Result<Outcome, Refusal>
    ensures { settled t result ≡ clone_of t caller.0 }
{
    let p = t.process(caller);
    let home = t.namespace(p.children);
    refuse_if(home.is_dead(), Refusal::Enomem)?;
    let slot = free_slot(&t).ok_or(Refusal::Eagain)?;
    Ok(born(&t, caller, slot, birth(t, slot, caller, p.children)))
}

// may_make makes its first two tests here; the third, whether there is room, is the searches' own.
#[inline(never)]
pub fn clone_new(t: Table, caller: ProcSlot) -> Result<Outcome, Refusal>
    ensures { settled t result ≡ clone_new_of t caller.0 }
{
    let level = own_level(&t, caller);
    may_make(&t, caller, level, false)?;
    let slot = free_slot(&t).ok_or(Refusal::Eagain)?;
    let n = free_namespace_slot(&t).ok_or(Refusal::Eagain)?;
    let p = t.process(caller);
    let u = new_namespace(t, n, p.own, level + 1);
    Ok(born(&t, caller, slot, birth(u, slot, caller, n)))
}
