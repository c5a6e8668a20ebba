// A process by itself and with its parent: traits, state, numbers, the namespaces that it names.
ghost use Rattle.std.specs.Prelude.{◌≡◌, eqb};
ghost use Rattle.table.specs.Limits.{levels as level_count};
ghost use Rattle.table.specs.Slots.{namespace, is_unborn, pid_at};
ghost use Rattle.rules.specs.Read.{view};
ghost use Rattle.rules.specs.Sound.{kept_end};
ghost use Rattle.table.specs.Tests.{◌implies◌, all};
ghost use Rattle.table.specs.declared.State.TheVariants.{Ended};
ghost use Rattle.table.specs.Traits.{blank_traits, bare_traits, traits_ok};
ghost use Rattle.tree.specs.Tree.{slot_in};
ghost use Rattle.sound.specs.Quick.{process_row, process_at, ended_ok, living_ok, state_ok, pid_ok, pids_ok, member_ok, parent_ok, blank, process_ok, processes_ok};
ghost use Rattle.sound.specs.Records.{member_row, home_row, inner_row};

use table::{
    End, GREATEST_PID, LEVELS, NO_SLOT, Namespace, Pid, Process, SIGKILL, SIGNALS, SIGSTOP,
    STATUSES, State, Table, Traits,
};
use tree::{Tree, holds_namespace};

// ---- a process's traits

// Whether there are no signals: an empty slot's are so, and so is what an end leaves.
#[tactic(auto, using(table::proofs::Chains::chains), unfolding(table::specs::Traits::blank_traits, table::specs::Traits::bare_traits))]
fn are_bare(x: Traits) -> bool
    ensures blank { result ≡ blank_traits x }
    ensures bare { result ≡ bare_traits x }
{
    x.handled == 0 && x.pending == 0
}

// Signals that can be handled, as bits: all but 0, 9 and 19.
const CATCHABLE: u32 = !(1 | 1 << SIGKILL | 1 << SIGSTOP);

// Whether a process may handle its signals, and the pending ones are among them.
fn traits_ok(x: Traits) -> bool
    ensures { result ≡ traits_ok x }
{
    (x.handled & CATCHABLE) == x.handled && (x.pending & x.handled) == x.pending
}

// ---- a process by itself

// What an ended process has left.
#[tactic(auto, using(table::proofs::Chains::chains), unfolding(crate::specs::Quick::ended_ok))]
fn ended_ok(p: &Process) -> bool
    ensures { result ≡ ended_ok (process_row p.now) }
{
    p.children.0 == NO_SLOT && are_bare(p.traits)
}

// Whether an end is one that can be kept: a number to 255, which every byte is, or a signal.
fn kept_ok(end: End) -> bool
    ensures { result ≡ kept_end (Ended end) }
{
    match end {
        End::Exited(status) => (status as u16) < STATUSES,
        End::Signaled(s) => 1 <= s && s < SIGNALS,
    }
}

// Whether a state is one that can stand; of an ended process, whether its end is.
fn end_ok(state: State) -> bool
    ensures { result ≡ kept_end state }
{
    match state {
        State::Running | State::Stopped => true,
        State::Ended(end) => kept_ok(end),
    }
}

// Whether a number may stand at a level: one up to the own level, and none beyond.
fn pid_ok(pid: Pid, l: usize, level: u8) -> bool
    ensures { result ≡ pid_ok pid.0 l level }
{
    if l <= level as usize {
        1 <= pid.0 && pid.0 <= GREATEST_PID
    } else {
        pid.0 == 0
    }
}

// Whether each number of a process may stand at its level, where its own namespace has this level.
fn pids_ok(p: &Process, level: u8) -> bool
    ensures { result ≡ pids_ok (pid_at p.now) level }
{
    (0..LEVELS).all(|l| pid_ok(p.pids[l], l, level))
}

// ---- an empty slot

// Whether a process has no number at any level.
fn no_pids(p: &Process) -> bool
    ensures { result ≡ all level_count (λ l. eqb (pid_at p.now l) 0) }
{
    p.pids.iter().all(|pid| pid.0 == 0)
}

// Whether an empty slot is all zero.
#[tactic(auto, using(table::proofs::Chains::chains), unfolding(crate::specs::Quick::blank))]
fn is_blank(p: &Process) -> bool
    ensures { result ≡ blank (process_row p.now) }
{
    p.own.0 == 0
        && p.children.0 == 0
        && p.parent.0 == 0
        && p.is_running()
        && are_bare(p.traits)
        && no_pids(p)
}

// ---- a process with the records that it names

// A process with its own namespace, the one for its children, and its parent.
#[derive(Drop)]
struct Member<'a> {
    process: &'a Process,
    home: Namespace,
    inner: Namespace,
    parent: Process,
}

impl<'a> Member<'a> {
    // That of a table.
    #[tactic(auto, using(crate::proofs::Records::row_at))]
    fn of(t: &Table, process: &'a Process) -> Member<'a>
        ensures process { result.process.now ≡ process.now }
        ensures home { result.home ≡ namespace t.now process.now.own.0 }
        ensures inner { result.inner ≡ namespace t.now process.now.children.0 }
        ensures parent { process_row result.parent ≡ process_at (view t.now) process.now.parent.0 }
    {
        Member {
            process,
            home: t.namespace(process.own),
            inner: t.namespace(process.children),
            parent: t.process(process.parent),
        }
    }

    // Whether what a living process holds for its children, if it is unborn, lies right below its own namespace.
    fn holds_rightly(&self) -> bool
        ensures { result ≡ (is_unborn self.now.inner.life implies eqb self.now.process.now.own.0 self.now.inner.parent.0) }
    {
        !self.inner.is_unborn() || self.process.own == self.inner.parent
    }

    // A living process's namespace is not dead, and the one for its children is its own or below.
    #[tactic(auto, using(table::proofs::Chains::chains), unfolding(crate::specs::Quick::living_ok))]
    fn living_ok(&self, tree: &Tree) -> bool
        ensures { result ≡ living_ok (slot_in tree.now.parents) (member_row self.now) (home_row self.now) (inner_row self.now) }
    {
        !self.home.is_dead()
            && holds_namespace(self.process.children, &self.inner)
            && tree.below(self.process.children, self.process.own, self.inner.level)
            && self.holds_rightly()
    }

    // An ended process keeps little; a living one is held to its namespaces.
    #[tactic(auto, using(table::proofs::Chains::chains), unfolding(crate::specs::Quick::state_ok))]
    fn state_ok(&self, tree: &Tree) -> bool
        ensures { result ≡ state_ok (slot_in tree.now.parents) (member_row self.now) (home_row self.now) (inner_row self.now) }
    {
        if self.process.has_ended() {
            ended_ok(self.process)
        } else {
            self.living_ok(tree)
        }
    }

    // All that a process is held to beside its parent.
    #[tactic(auto, using(table::proofs::Chains::chains), unfolding(crate::specs::Quick::member_ok))]
    fn member_ok(&self, tree: &Tree) -> bool
        ensures { result ≡ member_ok (slot_in tree.now.parents) (member_row self.now) (home_row self.now) (inner_row self.now) }
    {
        holds_namespace(self.process.own, &self.home)
            && !self.home.is_unborn()
            && end_ok(self.process.state)
            && traits_ok(self.process.traits)
            && pids_ok(self.process, self.home.level)
            && self.state_ok(tree)
    }

    // ---- with its parent

    // Whether the parent of a process with number 1 in its own namespace is in the parent namespace.
    fn first_ok(&self) -> bool
        ensures { result ≡ (eqb (pid_at self.now.process.now self.now.home.level) 1 implies eqb self.now.parent.own.0 self.now.home.parent.0) }
    {
        self.process.pid_at(self.home.level).0 != 1 || self.parent.own == self.home.parent
    }

    // A parent has not ended, and its own namespace is the child's or above it.
    #[tactic(auto, using(table::proofs::Chains::chains), unfolding(crate::specs::Quick::parent_ok))]
    fn parent_ok(&self, tree: &Tree) -> bool
        ensures { result ≡ parent_ok (slot_in tree.now.parents) (member_row self.now) (home_row self.now) (process_row self.now.parent) }
    {
        self.parent.is_taken()
            && !self.parent.has_ended()
            && tree.below(self.process.own, self.parent.own, self.home.level)
            && self.first_ok()
    }

    // ---- a slot

    // What stands at slot i, or that it is blank.
    #[tactic(auto, using(table::proofs::Chains::chains), unfolding(crate::specs::Quick::process_ok))]
    fn process_ok(&self, tree: &Tree, i: usize) -> bool
        ensures { result ≡ process_ok (slot_in tree.now.parents) i (member_row self.now) (home_row self.now) (inner_row self.now) (process_row self.now.parent) }
    {
        if self.process.is_taken() {
            self.member_ok(tree) && (i == 0 || self.parent_ok(tree))
        } else {
            is_blank(self.process)
        }
    }
}

// ---- all slots

// Each process slot, with the records that its process names.
pub(crate) fn processes_ok(t: &Table) -> bool
    ensures { result ≡ processes_ok (view t.now) }
{
    let tree = Tree::of(&t.namespaces);
    for (i, p) in t.processes.iter().enumerate() {
        if !Member::of(t, p).process_ok(&tree, i) {
            return false;
        }
    }
    true
}
