// The delivery of a signal, to one process and to several, and whom a caller sees beside itself.
#![tactic(auto, using(table::proofs::Chains::chains))]

ghost use Rattle.std.specs.Prelude.{◌≡◌, ℕ, ◌<◌, ◌+◌, not, eqb};
ghost use Rattle.rules.proofs.Laws.ReadAt.{ReadAt};
ghost use Rattle.rules.specs.Calls.{others as others_of};
ghost use Rattle.rules.specs.Delivery.{action_on as action_in, resumed as as_resumed, with_pending as as_pending};
ghost use Rattle.table.specs.Limits.{signals, process_slots};
ghost use Rattle.rules.specs.Read.{View, view, is_init as is_init_in};
ghost use Rattle.table.specs.Tests.{◌or◌, insert};
ghost use Rattle.table.specs.declared.State.TheVariants.{Stopped};
ghost use Rattle.table.specs.Records.{with_state};
ghost use Rattle.tree.specs.Tree.{slot_in, level_in};
ghost use Rattle.delivery.specs.Actions.{lives, is_forced, forced_by, plain_by};
ghost use Rattle.delivery.specs.Delivery.{Delivers, DeliversAll};
ghost use Rattle.delivery.specs.Targets.{numbers, pids_of, pid_in, listed, other_from, Lists};

use ending::end_process;
use signals::{default_action, has_signal, with_signal};
use table::{
    Action, End, NsSlot, PROCESS_SLOTS, Pid, ProcSlot, Process, SIGCONT, SIGKILL, SIGSTOP, State,
    Table, at, column,
};
use tree::Tree;

// ---- what a signal does to a process

// Whether the slot holds a process that has not ended.
fn is_living(p: &Process) -> bool
    ensures { result ≡ lives p.now }
{
    p.is_taken() && !p.has_ended()
}

// 9 and 19, which nobody handles.
fn is_forced(s: u8) -> bool
    ensures { result ≡ is_forced s }
{
    s == SIGKILL || s == SIGSTOP
}

// To an init 9 and 19 act only from a namespace above.
fn forced_action(p: &Process, init: bool, from: NsSlot, s: u8) -> Action
    ensures { result ≡ forced_by init p.now.own.0 from.0 s }
{
    if init && p.own == from {
        return Action::Nothing;
    }
    default_action(s)
}

// A signal that can be handled, to a process that handles these. Unhandled, it does nothing to an init.
fn plain_action(handled: u32, init: bool, s: u8) -> Action
    ensures { result ≡ plain_by init handled s }
{
    if has_signal(handled, s) {
        return Action::Pend;
    }
    if init {
        return Action::Nothing;
    }
    default_action(s)
}

// Whether a signal passes a process by: signal 0 only asks whether one is there, and one that has ended gets none.
fn passes_by(p: &Process, s: u8) -> bool
    ensures { result ≡ (eqb s 0 or not (lives p.now)) }
{
    s == 0 || !is_living(p)
}

// What a signal does to a process, sent from a namespace; init says whether it is the init of its own. Only a signal
// that a set can hold pends.
fn action_on(p: &Process, init: bool, from: NsSlot, s: u8) -> Action
    ensures { ((v : View) (i : ℕ) → ReadAt v i p.now → init ≡ is_init_in v i → result ≡ action_in v from.0 i s) × (result ≡ Action.Pend → s < signals) }
{
    let handled = p.traits.handled;
    if passes_by(p, s) {
        return Action::Nothing;
    }
    if s == SIGCONT {
        return Action::Resume;
    }
    if is_forced(s) {
        return forced_action(p, init, from, s);
    }
    plain_action(handled, init, s)
}

// ---- the target afterwards

// It is stopped, and keeps the rest.
fn stopped(p: &Process) -> Process
    ensures { result ≡ with_state p.now Stopped }
{
    Process {
        state: State::Stopped,
        ..*p
    }
}

// The signal waits for a poll.
fn with_pending(mut p: Process, s: u8) -> Process
    requires { s < signals }
    ensures { result ≡ as_pending p s }
{
    p.traits = p
        .traits
        .with_signals(p.traits.handled, with_signal(p.traits.pending, s));
    p
}

// It runs, and the signal is pending too if handled.
#[tactic(auto, using(table::proofs::Chains::chains), unfolding(rules::specs::Delivery::resumed))]
fn resumed(p: &Process) -> Process
    ensures { result ≡ as_resumed p.now }
{
    let q = Process {
        state: State::Running,
        ..*p
    };
    if has_signal(p.traits.handled, SIGCONT) {
        return with_pending(q, SIGCONT);
    }
    q
}

// ---- one target

// Whether the process at a slot is the init of its own namespace.
fn is_init(t: &Table, slot: ProcSlot) -> bool
    ensures { result ≡ is_init_in (view t.now) slot.0 }
{
    t.namespace(t.process(slot).own).init() == slot
}

// Delivers a signal that a process of the namespace `from` sends. An empty slot is passed over, as an ended target is.
pub fn deliver(t: Table, from: NsSlot, slot: ProcSlot, s: u8) -> Table
    ensures { Delivers t from.0 slot.0 s result }
{
    let p = t.process(slot);
    match action_on(&p, is_init(&t, slot), from, s) {
        Action::Nothing => t,
        Action::Resume => t.with_process(slot, resumed(&p)),
        Action::Stop => t.with_process(slot, stopped(&p)),
        Action::Finish => end_process(t, slot, End::Signaled(s)),
        Action::Pend => t.with_process(slot, with_pending(p, s)),
    }
}

// ---- whom a caller sees beside itself

// Slots in an order: the first len of the array.
#[derive(Clone, Copy)]
pub struct Targets {
    pub slots: [ProcSlot; PROCESS_SLOTS],
    pub len: usize,
}

// The number of each process at a level.
fn pids_at(processes: &[Process; PROCESS_SLOTS], level: u8) -> [Pid; PROCESS_SLOTS]
    ensures { pid_in result ≡ pids_of processes.now level }
{
    column(processes, Pid(0), |p| p.pid_at(level))
}

// A slot put at its place by ascending number: before the first with a higher one. From there on each moves up by one,
// one at a time: what moves many at once (`copy_within`, a list's `insert`) is a call of `memmove`, which the archive
// for C would need from outside.
fn insert(found: &mut Targets, pids: &[Pid; PROCESS_SLOTS], slot: ProcSlot)
    requires { found.old.len < process_slots }
    ensures len { found.new.len ≡ found.old.len + 1 }
    ensures list { listed found.new ≡ insert (pid_in pids.now) slot.0 (listed found.old) }
{
    let pid = at(pids, slot.0, Pid(0));
    let mut held = slot;
    let mut placed = false;
    for i in 0..found.len {
        let other = found.slots[i];
        if placed || pid < at(pids, other.0, Pid(0)) {
            found.slots[i] = held;
            held = other;
            placed = true;
        }
    }
    found.slots[found.len] = held;
    found.len += 1;
}

// Whether a process is seen from n and is neither the caller nor number 1 there. The climb, the longest, comes last.
fn is_other(tree: &Tree, n: NsSlot, caller: ProcSlot, slot: ProcSlot, pid: Pid, p: &Process) -> bool
    ensures { result ≡ other_from (slot_in tree.now.parents) (level_in tree.now.levels) n.0 caller.0 slot.0 pid.0 p.now }
{
    slot != caller && pid != Pid(1) && tree.sees(n, p)
}

// All that the caller sees but itself and number 1, in ascending number.
pub fn others(t: &Table, caller: ProcSlot) -> Targets
    ensures { Lists result (others_of (view t.now) caller.0) }
{
    let tree = Tree::of(&t.namespaces);
    let n = t.process(caller).own;
    let pids = pids_at(&t.processes, tree.level(n));
    let mut found = Targets {
        slots: [ProcSlot(0); PROCESS_SLOTS],
        len: 0,
    };
    for (i, p) in t.processes.iter().enumerate() {
        let slot = ProcSlot(i as u8);
        if is_other(&tree, n, caller, slot, pids[i], p) {
            insert(&mut found, &pids, slot);
        }
    }
    found
}

// ---- several targets

// Delivers a signal to each of a list, one after the other. One that has ended or been removed by then is passed over.
pub fn deliver_all(mut t: Table, from: NsSlot, found: &[ProcSlot], s: u8) -> Table
    ensures { DeliversAll t from.0 (numbers found.now) s result }
{
    for slot in found {
        t = deliver(t, from, *slot, s);
    }
    t
}
