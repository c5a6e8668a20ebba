// The caller: its namespace's level, whether its children are born into another one, whom a number names in its own,
// and the calls that only ask: getpid and getppid.
#![tactic(auto)]

ghost use Rattle.std.specs.Prelude.{◌≡◌, ◌<◌, IfSome};
ghost use Rattle.outcomes.specs.Verdicts.{verdict};
ghost use Rattle.rules.specs.Calls.{own_level, elsewhere, named as named_in, getpid as getpid_of, getppid as getppid_of};
ghost use Rattle.rules.specs.Read.{view};
ghost use Rattle.callers.specs.Making.{refusals_at};
ghost use Rattle.table.specs.Limits.{process_slots};
ghost use Rattle.tree.specs.Tree.{process_found};

use arguments::names_one;
use outcomes::{answers, refuse_if};
use table::{DEEPEST, Outcome, Pid, ProcSlot, Refusal, Table};
use tree::{Tree, find};

// The level of the caller's own namespace.
pub fn own_level(t: &Table, caller: ProcSlot) -> u8
    ensures { result ≡ own_level (view t.now) caller.0 }
{
    let p = t.process(caller);
    let home = t.namespace(p.own);
    home.level
}

// Whether the children's namespace is not the caller's own.
fn is_elsewhere(t: &Table, caller: ProcSlot) -> bool
    ensures { result ≡ elsewhere (view t.now) caller.0 }
{
    let p = t.process(caller);
    p.children != p.own
}

// Whether the caller may make a namespace, given its own level and whether there is no room: the refusals of clone new
// and of unshare.
pub fn may_make(t: &Table, caller: ProcSlot, level: u8, full: bool) -> Result<(), Refusal>
    ensures { result ≡ verdict (refusals_at (view t.now) caller.0 level full) }
{
    refuse_if(is_elsewhere(t, caller), Refusal::Einval)?;
    refuse_if(DEEPEST <= level, Refusal::Enospc)?;
    refuse_if(full, Refusal::Eagain)
}

// The process that a number names in the caller's namespace. Nobody has a number of 0 or below, or one that a Pid
// cannot hold. (The table is passed whole: of one that is lent, the proof does not know that its records are in range.)
pub fn named(t: Table, caller: ProcSlot, n: i32) -> Option<ProcSlot>
    ensures slot { process_found result ≡ named_in (view t) caller.0 n }
    ensures within { IfSome result (λ s. s.0 < process_slots) }
{
    if !names_one(n) {
        return None;
    }
    let Ok(pid) = u16::try_from(n) else {
        return None;
    };
    let p = t.process(caller);
    find(&t, p.own, Pid(pid))
}

#[inline(never)]
pub fn getpid(t: Table, caller: ProcSlot) -> Outcome
    ensures { result ≡ getpid_of t caller.0 }
{
    let p = t.process(caller);
    let pid = p.pid_at(own_level(&t, caller));
    answers(t, pid.0)
}

#[inline(never)]
pub fn getppid(t: Table, caller: ProcSlot) -> Outcome
    ensures { result ≡ getppid_of t caller.0 }
{
    let p = t.process(caller);
    let parent = t.process(p.parent);
    let pid = Tree::of(&t.namespaces).pid_in(p.own, &parent);
    answers(t, pid.0)
}
