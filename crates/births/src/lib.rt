// A birth, of clone: the child's record, its number at each level, and what it changes in its namespace and in those
// above. And a new namespace, of clone and unshare. Each takes the slot that its caller has found free.
#![tactic(auto, using(table::proofs::Chains::chains))]

ghost use Rattle.std.specs.Prelude.{◌≡◌};
ghost use Rattle.births.specs.Births.{birth_at, namespace_at, child_with, joined_by};

use numbers::{holders, next_pid, pid_by_marks};
use table::{
    LEVELS, Life, Namespace, NsSlot, Pid, ProcSlot, Process, State, Table, Traits, at,
    empty_namespace, set_at,
};
use tree::Tree;

// ---- one record

// A child runs, its children's namespace is its own.
fn newborn(caller: ProcSlot, n: NsSlot, traits: Traits, pids: [Pid; LEVELS]) -> Process
    ensures { result ≡ child_with caller.0 n.0 traits pids }
{
    Process {
        own: n,
        children: n,
        parent: caller,
        state: State::Running,
        traits,
        pids,
    }
}

// A namespace in which a child takes a number: it becomes the last, and of an unborn one the child is the init.
fn joined(s: &Namespace, child: ProcSlot, pid: Pid) -> Namespace
    ensures { result ≡ joined_by child.0 pid.0 s.now }
{
    let life = if s.is_unborn() {
        Life::Alive(child)
    } else {
        s.life
    };
    Namespace {
        last: pid,
        life,
        ..*s
    }
}

// ---- the table

// A child of the caller is born into n, at a slot. One search for each level gives the child's number there and the
// new last number of the namespace; all of them are made on the table as it was.
pub fn birth(t: Table, slot: ProcSlot, caller: ProcSlot, n: NsSlot) -> Table
    ensures { result ≡ birth_at t slot.0 caller.0 n.0 }
{
    let tree = Tree::of(&t.namespaces);
    let mut namespaces = t.namespaces;
    let mut pids = [Pid(0); LEVELS];
    let mut place = n;
    for level in (0..t.namespace(n).level as usize + 1).rev() {
        let here = t.namespace(place);
        let holders = holders(&t.processes, here.level);
        let found = pid_by_marks(&tree, &holders, place, here.last);
        // As in `next_pid`, but with one tree for all levels: it stands here, where this crate's edits change it.
        let pid = match found {
            Some(pid) => pid,
            None => next_pid(&t, place),
        };
        set_at(&mut pids, level as u8, pid);
        let before = at(&namespaces, place.0, empty_namespace());
        set_at(&mut namespaces, place.0, joined(&before, slot, pid));
        place = here.parent;
    }
    let traits = t.process(caller).traits;
    let mut u = t.with_process(slot, newborn(caller, n, traits.born(), pids));
    u.namespaces = namespaces;
    u
}

// An unborn namespace at a slot, with its parent and its level, which is one more than the parent's.
#[tactic(auto, unfolding(crate::specs::Births::namespace_at))]
pub fn new_namespace(t: Table, slot: NsSlot, parent: NsSlot, level: u8) -> Table
    ensures { result ≡ namespace_at t slot.0 parent.0 level }
{
    let n = Namespace {
        parent,
        level,
        last: Pid(0),
        life: Life::Unborn,
    };
    t.with_namespace(slot, n)
}
