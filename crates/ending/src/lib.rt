// The end of a process, and the freeing of namespaces that nobody holds. A table is large: it is changed in place, and
// what is done at each slot takes one record.
#![tactic(auto, using(table::proofs::Chains::chains))]

ghost use Rattle.std.specs.Prelude.{◌≡◌, ◌<◌, get_or};
ghost use Rattle.rules.specs.Freeing.{freed};
ghost use Rattle.table.specs.Limits.{process_slots};
ghost use Rattle.table.specs.Records.{as_ended};
ghost use Rattle.table.specs.Slots.{no_process};
ghost use Rattle.tree.specs.Tree.{ups_of, levels_of, slot_in, level_in, seen_from};
ghost use Rattle.ending.specs.Ending.{killed as killed_by_9, dies_with, once_dead, marked_dead, falls_with, end_member, end_namespace, once_swept, swept, end_init, once_handed, handed_over, Ends};
ghost use Rattle.ending.specs.Holding.{mark_at, marks_of, keeps, kept_for, once_freed};

use table::{
    DEEPEST, End, Life, NAMESPACE_SLOTS, NO_SLOT, Namespace, NsSlot, PROCESS_SLOTS, ProcSlot,
    Process, SIGKILL, State, Table, at, column, empty_namespace, empty_process, set_at,
};
use tree::{Tree, is_blank_namespace, mark_process};

// ---- one record

// A process that has ended has no children's namespace or signals.
fn ended(p: &Process, how: End) -> Process
    ensures { result ≡ as_ended p.now how }
{
    Process {
        children: NsSlot(NO_SLOT),
        state: State::Ended(how),
        traits: p.traits.ended(),
        ..*p
    }
}

// A process ended by signal 9, unless it had ended before.
#[tactic(auto, using(table::proofs::Chains::chains), unfolding(crate::specs::Ending::killed))]
fn killed(p: &Process) -> Process
    ensures { result ≡ killed_by_9 p.now }
{
    if p.has_ended() {
        return *p;
    }
    ended(p, End::Signaled(SIGKILL))
}

// ---- a namespace ends with its members

// Whether the namespace s at slot m is dead once n is: it is n, or an unborn one right below, which has no init to end
// with.
#[tactic(auto, using(table::proofs::Chains::chains), unfolding(crate::specs::Ending::dies_with))]
fn dies_with(n: NsSlot, m: NsSlot, s: &Namespace) -> bool
    ensures { result ≡ dies_with n.0 m.0 s.now }
{
    m == n || (s.level != 0 && s.parent == n && s.is_unborn())
}

// What is left of the namespace s at slot m once n is dead.
#[tactic(auto, using(table::proofs::Chains::chains), unfolding(crate::specs::Ending::once_dead))]
fn once_dead(n: NsSlot, m: NsSlot, s: &Namespace) -> Namespace
    ensures { result ≡ once_dead n.0 m.0 s.now }
{
    if dies_with(n, m, s) {
        return Namespace {
            life: Life::Dead,
            ..*s
        };
    }
    *s
}

// The namespace n is dead, and what dies with it.
fn mark_dead(t: &mut Table, n: NsSlot)
    ensures { t.new ≡ marked_dead t.old n.0 }
{
    for (i, s) in t.namespaces.iter_mut().enumerate() {
        *s = once_dead(n, NsSlot(i as u8), s);
    }
}

// Whether the process p at a slot ends as n does: it is a member of n that has not ended, or the init of a namespace
// right below n.
#[tactic(auto, using(table::proofs::Chains::chains), unfolding(crate::specs::Ending::falls_with))]
fn falls_with(
    namespaces: &[Namespace; NAMESPACE_SLOTS],
    n: NsSlot,
    slot: ProcSlot,
    p: &Process,
) -> bool
    ensures { result ≡ falls_with namespaces.now n.0 slot.0 p.now }
{
    if !p.is_taken() {
        return false;
    }
    if p.own == n {
        return !p.has_ended();
    }
    let home = at(namespaces, p.own.0, empty_namespace());
    home.parent == n && home.init() == slot
}

// Ends the namespace n, with that many levels left below it: it is dead, and each process that falls with it ends.
#[cycle(end_member_end_namespace)]
fn end_namespace(t: &mut Table, n: NsSlot, left: u8)
    ensures { t.new ≡ end_namespace left t.old n.0 }
{
    mark_dead(t, n);
    for i in 0..PROCESS_SLOTS {
        if falls_with(&t.namespaces, n, ProcSlot(i as u8), &t.processes[i]) {
            end_member(t, n, i, left);
        }
    }
}

// Ends the process at i, which falls with n. A member of n is ended by signal 9; the init of a namespace right below
// takes its own namespace down. That no level is left is never met on a sound table: nothing lies below the deepest.
#[cycle(end_member_end_namespace)]
fn end_member(t: &mut Table, n: NsSlot, i: usize, left: u8)
    requires { i < process_slots }
    ensures { t.new ≡ end_member left t.old n.0 i }
{
    let own = t.processes[i].own;
    if own == n {
        t.processes[i] = killed(&t.processes[i]);
        return;
    }
    if left == 0 {
        return;
    }
    end_namespace(t, own, left - 1);
}

// ---- the end of an init

// Which of these processes are in the subtree of n, ended ones too.
fn insiders(processes: &[Process; PROCESS_SLOTS], tree: &Tree, n: NsSlot) -> [bool; PROCESS_SLOTS]
    ensures { mark_at result ≡ (λ i. seen_from (slot_in tree.now.parents) (level_in tree.now.levels) n.0 (get_or processes.now i no_process)) }
{
    column(processes, false, |p| tree.sees(n, p))
}

// What is left of the process p at a slot: nothing, if it and its parent are inside.
#[tactic(auto, using(table::proofs::Chains::chains), unfolding(crate::specs::Ending::once_swept))]
fn once_swept(inside: &[bool; PROCESS_SLOTS], slot: ProcSlot, p: &Process) -> Process
    ensures { result ≡ once_swept (mark_at inside.now) slot.0 p.now }
{
    if at(inside, slot.0, false) && at(inside, p.parent.0, false) {
        return empty_process();
    }
    *p
}

// Removes each process of the subtree of n whose parent is in it too.
fn sweep(t: &mut Table, n: NsSlot)
    ensures { t.new ≡ swept t.old n.0 }
{
    let inside = insiders(&t.processes, &Tree::of(&t.namespaces), n);
    for (i, p) in t.processes.iter_mut().enumerate() {
        *p = once_swept(&inside, ProcSlot(i as u8), p);
    }
}

// The end of an init: its namespace ends with all below it; the init keeps its own reason, and whoever has its parent
// inside is removed. No namespace lies deeper than DEEPEST levels below another, so that many left are enough.
fn end_init(t: &mut Table, slot: ProcSlot, how: End)
    ensures { t.new ≡ end_init t.old slot.0 how }
{
    let p = t.process(slot);
    end_namespace(t, p.own, DEEPEST);
    set_at(&mut t.processes, slot.0, ended(&p, how));
    sweep(t, p.own);
}

// ---- the end of a process

// What becomes of the process p at slot i when the one at `slot` ends, which is no init: an orphan goes to the init.
#[tactic(auto, using(table::proofs::Chains::chains), unfolding(crate::specs::Ending::once_handed))]
fn once_handed(slot: ProcSlot, how: End, init: ProcSlot, i: ProcSlot, p: &Process) -> Process
    ensures { result ≡ once_handed slot.0 how init.0 i.0 p.now }
{
    if i == slot {
        return ended(p, how);
    }
    if p.is_taken() && p.parent == slot {
        return Process { parent: init, ..*p };
    }
    *p
}

// The end of a process that is no init: all its children go to the init of its own namespace.
fn hand_over(t: &mut Table, slot: ProcSlot, how: End, init: ProcSlot)
    ensures { t.new ≡ handed_over t.old slot.0 how init.0 }
{
    for (i, p) in t.processes.iter_mut().enumerate() {
        *p = once_handed(slot, how, init, ProcSlot(i as u8), p);
    }
}

// The end of a process. The table may have namespaces that nobody holds: a signal to many ends several in a row.
pub fn end_process(mut t: Table, slot: ProcSlot, how: End) -> Table
    ensures { Ends t slot.0 how result }
{
    let init = t.namespace(t.process(slot).own).init();
    if init == slot {
        end_init(&mut t, slot, how);
    } else {
        hand_over(&mut t, slot, how, init);
    }
    t
}

// ---- freeing

// The namespaces that some process has as its own or for its children.
fn held(t: &Table) -> [bool; NAMESPACE_SLOTS]
    ensures { result ≡ marks_of t.now }
{
    let mut marks = [false; NAMESPACE_SLOTS];
    for p in &t.processes {
        mark_process(&mut marks, p);
    }
    marks
}

// What freeing reads: the tree, and which namespaces some process holds.
#[derive(Drop)]
struct Holding {
    tree: Tree,
    marks: [bool; NAMESPACE_SLOTS],
}

impl Holding {
    // That of a table.
    fn of(t: &Table) -> Holding
        ensures parents { slot_in result.tree.parents ≡ ups_of t.now.namespaces }
        ensures levels { level_in result.tree.levels ≡ levels_of t.now.namespaces }
        ensures marks { result.marks ≡ marks_of t.now }
    {
        Holding {
            tree: Tree::of(&t.namespaces),
            marks: held(t),
        }
    }

    // Whether the namespace m is marked and lies in the subtree of n.
    #[tactic(auto, using(table::proofs::Chains::chains), unfolding(crate::specs::Holding::keeps))]
    fn keeps(&self, n: NsSlot, m: NsSlot) -> bool
        ensures { result ≡ keeps (slot_in self.now.tree.parents) (level_in self.now.tree.levels) (mark_at self.now.marks) n.0 m.0 }
    {
        at(&self.marks, m.0, false) && self.tree.below(m, n, self.tree.level(m))
    }

    // Whether n stays: it is the root, or some namespace keeps it.
    fn is_kept(&self, n: NsSlot) -> bool
        ensures { result ≡ kept_for (slot_in self.now.tree.parents) (level_in self.now.tree.levels) (mark_at self.now.marks) n.0 }
    {
        n.0 == 0 || (0..NAMESPACE_SLOTS as u8).any(|m| self.keeps(n, NsSlot(m)))
    }

    // What is left of the namespace s at slot n. Most slots are blank, and need no climbs.
    #[tactic(auto, using(table::proofs::Chains::chains, crate::proofs::Freeing::freed_blank), unfolding(crate::specs::Holding::once_freed))]
    fn once_freed(&self, n: NsSlot, s: &Namespace) -> Namespace
        ensures { result ≡ once_freed (slot_in self.now.tree.parents) (level_in self.now.tree.levels) (mark_at self.now.marks) n.0 s.now }
    {
        if is_blank_namespace(s) || self.is_kept(n) {
            return *s;
        }
        empty_namespace()
    }
}

// Frees the namespaces that nobody holds, upward as far as that goes.
pub fn free_unheld(mut t: Table) -> Table
    ensures { result ≡ freed t }
{
    let holding = Holding::of(&t);
    for (i, s) in t.namespaces.iter_mut().enumerate() {
        *s = holding.once_freed(NsSlot(i as u8), s);
    }
    t
}
