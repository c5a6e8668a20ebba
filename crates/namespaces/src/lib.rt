// unshare and setns: the namespace that the caller's children are born into.
#![tactic(auto)]

ghost use Rattle.std.specs.Prelude.{◌≡◌};
ghost use Rattle.outcomes.specs.Verdicts.{settled};
ghost use Rattle.rules.specs.Calls.{unshare as unshare_of, set_children, setns as setns_of};

use births::new_namespace;
use callers::{may_make, named, own_level};
use ending::free_unheld;
use outcomes::{answers, refuse_if};
use table::{NsSlot, Outcome, ProcSlot, Process, Refusal, Table};
use tree::free_namespace_slot;

// The caller's children's namespace becomes n; the caller's own stays.
fn set_children(t: Table, caller: ProcSlot, n: NsSlot) -> Table
    ensures { result ≡ set_children t caller.0 n.0 }
{
    let p = t.process(caller);
    let q = Process { children: n, ..p };
    free_unheld(t.with_process(caller, q))
}

// may_make makes its first two tests here; the third, whether there is room, is the search's own.
#[inline(never)]
pub fn unshare(t: Table, caller: ProcSlot) -> Result<Outcome, Refusal>
    ensures { settled t result ≡ unshare_of t caller.0 }
{
    let level = own_level(&t, caller);
    may_make(&t, caller, level, false)?;
    let n = free_namespace_slot(&t).ok_or(Refusal::Eagain)?;
    let p = t.process(caller);
    let u = new_namespace(t, n, p.own, level + 1);
    Ok(answers(set_children(u, caller, n), 0))
}

#[inline(never)]
pub fn setns(t: Table, caller: ProcSlot, n: i32) -> Result<Outcome, Refusal>
    ensures { settled t result ≡ setns_of t caller.0 n }
{
    let slot = named(t, caller, n).ok_or(Refusal::Esrch)?;
    let target = t.process(slot);
    refuse_if(target.has_ended(), Refusal::Esrch)?;
    Ok(answers(set_children(t, caller, target.own), 0))
}
