// The tree of namespaces: what lies below what, who is seen from where and under which number, the lowest free slots,
// and marks of namespaces. All of it reads, so it is lent what it reads.
#![tactic(auto, using(table::proofs::Chains::chains))]

ghost use Rattle.std.specs.Prelude.{true, ◌≡◌, ◌<◌, set, IfSome, unwrap_or};
ghost use Rattle.rules.specs.Read.{view, climb, find as find_in};
ghost use Rattle.rules.specs.Pids.{free_slot, free_namespace_slot};
ghost use Rattle.table.specs.Limits.{process_slots, namespace_slots};
ghost use Rattle.tree.specs.Tree.{ups_of, levels_of, slot_in, level_in, seen_from, pid_from, named_from, holds_namespace, is_blank_namespace, mark_process, process_found, namespace_found};

use table::{
    NAMESPACE_SLOTS, Namespace, NsSlot, PROCESS_SLOTS, Pid, ProcSlot, Process, Table, at, set_at,
};

// ---- the tree

// The parents and the levels of all namespaces: all that a climb reads. They are two arrays and not one of pairs, as
// the definitions read the one and the other (`slot_in`, `level_in`), and so do the clauses.
#[derive(Clone, Copy)]
pub struct Tree {
    pub parents: [NsSlot; NAMESPACE_SLOTS],
    pub levels: [u8; NAMESPACE_SLOTS],
}

impl Tree {
    // That of a table with these namespaces.
    pub fn of(namespaces: &[Namespace; NAMESPACE_SLOTS]) -> Tree
        ensures parents { slot_in result.parents ≡ ups_of namespaces.now }
        ensures levels { level_in result.levels ≡ levels_of namespaces.now }
    {
        let mut parents = [NsSlot(0); NAMESPACE_SLOTS];
        let mut levels = [0; NAMESPACE_SLOTS];
        for (i, n) in namespaces.iter().enumerate() {
            parents[i] = n.parent;
            levels[i] = n.level;
        }
        Tree { parents, levels }
    }

    // The parent of a namespace; past the last slot 0, as in an empty one.
    pub fn parent(&self, n: NsSlot) -> NsSlot
        ensures { result.0 ≡ slot_in self.now.parents n.0 }
    {
        at(&self.parents, n.0, NsSlot(0))
    }

    // The level of a namespace; past the last slot 0, as in an empty one.
    pub fn level(&self, n: NsSlot) -> u8
        ensures { result ≡ level_in self.now.levels n.0 }
    {
        at(&self.levels, n.0, 0)
    }

    // ---- below

    // Whether the climb from a to its parent and so on comes to b, in so many steps at most. As many as a's level are
    // enough: in a sound table that many come to the root.
    pub fn below(&self, a: NsSlot, b: NsSlot, steps: u8) -> bool
        ensures { result ≡ climb (slot_in self.now.parents) steps a.0 b.0 }
    {
        if a == b {
            return true;
        }
        if steps == 0 {
            return false;
        }
        self.below(self.parent(a), b, steps - 1)
    }

    // ---- who is seen

    // Whether a process is in the subtree of n, ended or not.
    pub fn sees(&self, n: NsSlot, p: &Process) -> bool
        ensures { result ≡ seen_from (slot_in self.now.parents) (level_in self.now.levels) n.0 p.now }
    {
        p.is_taken() && self.below(p.own, n, self.level(p.own))
    }

    // The number of a process in n, or 0, which is no number, where it is not seen.
    pub fn pid_in(&self, n: NsSlot, p: &Process) -> Pid
        ensures { result.0 ≡ pid_from (slot_in self.now.parents) (level_in self.now.levels) n.0 p.now }
    {
        if !self.sees(n, p) {
            return Pid(0);
        }
        p.pid_at(self.level(n))
    }

    // Whether a process is seen from n and has a number at a level. The number is compared first: few processes have
    // it, and a climb takes longer.
    pub fn names(&self, n: NsSlot, level: u8, pid: Pid, p: &Process) -> bool
        ensures { result ≡ named_from (slot_in self.now.parents) (level_in self.now.levels) n.0 level pid.0 p.now }
    {
        p.pid_at(level) == pid && self.sees(n, p)
    }
}

// ---- searches for a slot. A ProcSlot or NsSlot may be any byte, so a clause says that the one that is found is a slot of
// the table.

// The process whose number in n is pid.
pub fn find(t: &Table, n: NsSlot, pid: Pid) -> Option<ProcSlot>
    ensures slot { process_found result ≡ find_in (view t.now) n.0 pid.0 }
    ensures within { IfSome result (λ s. s.0 < process_slots) }
{
    let tree = Tree::of(&t.namespaces);
    let level = tree.level(n);
    let has_it = |p: &Process| tree.names(n, level, pid, p);
    process_at(t.processes.iter().position(has_it))
}

// A place among the processes as a slot.
fn process_at(place: Option<usize>) -> Option<ProcSlot>
    requires { IfSome place (λ i. i < process_slots) }
    ensures slot { process_found result ≡ unwrap_or place process_slots }
    ensures within { IfSome result (λ s. s.0 < process_slots) }
{
    let i = place?;
    Some(ProcSlot(i as u8))
}

// ---- free slots

// The lowest free process slot.
pub fn free_slot(t: &Table) -> Option<ProcSlot>
    ensures slot { process_found result ≡ free_slot (view t.now) }
    ensures within { IfSome result (λ s. s.0 < process_slots) }
{
    process_at(t.processes.iter().position(|p| !p.is_taken()))
}

// Whether a slot with this record holds a namespace: it is the root's, or its level is not 0.
pub fn holds_namespace(slot: NsSlot, n: &Namespace) -> bool
    ensures { result ≡ holds_namespace slot.0 n.now }
{
    slot.0 == 0 || n.level != 0
}

// Whether nothing stands at a namespace slot with this record: all zero, and unborn.
#[tactic(auto, using(table::proofs::Chains::chains), unfolding(crate::specs::Tree::is_blank_namespace))]
pub fn is_blank_namespace(s: &Namespace) -> bool
    ensures { result ≡ is_blank_namespace s.now }
{
    s.parent.0 == 0 && s.level == 0 && s.last.0 == 0 && s.is_unborn()
}

// The lowest free namespace slot.
pub fn free_namespace_slot(t: &Table) -> Option<NsSlot>
    ensures slot { namespace_found result ≡ free_namespace_slot (view t.now) }
    ensures within { IfSome result (λ s. s.0 < namespace_slots) }
{
    for (i, n) in t.namespaces.iter().enumerate() {
        let slot = NsSlot(i as u8);
        if !holds_namespace(slot, n) {
            return Some(slot);
        }
    }
    None
}

// ---- marks of namespaces

// The marks with those of a process: ended or not, it holds its own namespace and that for its children. Past the last
// slot there is none to put.
pub fn mark_process(marks: &mut [bool; NAMESPACE_SLOTS], p: &Process)
    ensures { marks.new ≡ mark_process marks.old p.now }
{
    if p.is_taken() {
        set_at(marks, p.own.0, true);
        set_at(marks, p.children.0, true);
    }
}
