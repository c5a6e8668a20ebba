// The table as a host holds it: without enums, so that C can hold it too. It is read and written whole.
#![tactic(auto)]

ghost use Rattle.std.specs.Prelude.{◌≡◌};
ghost use Rattle.mirror.specs.Mirror.{state_kind, state_end, life_kind, life_init, process_row, namespace_row, mirror_of, state_from, life_from, process_from, namespace_from, is_process_row, is_namespace_row, is_written, empty_table, table_from};

use std::array::from_fn;
use table::{
    End, LEVELS, Life, NAMESPACE_SLOTS, Namespace, NsSlot, PROCESS_SLOTS, Pid, ProcSlot, Process,
    State, Table, Traits, empty_namespace, empty_process,
};

// State: 0 running, 1 stopped, 2 ended with a number, 3 by a signal; and that number or signal. The order of the fields
// leaves one byte between them, which is named, so that none is hidden.
#[repr(C)]
#[derive(Clone, Copy)]
pub struct ProcessRow {
    pub own: NsSlot,
    pub children: NsSlot,
    pub parent: ProcSlot,
    pub state: u8,
    pub end: u8,
    pub reserved: u8,
    pub pids: [Pid; LEVELS],
    pub handled: u32,
    pub pending: u32,
}

// Life: 0 unborn, 1 alive, 2 dead; and the init of a living one.
#[repr(C)]
#[derive(Clone, Copy)]
pub struct NamespaceRow {
    pub parent: NsSlot,
    pub level: u8,
    pub life: u8,
    pub init: u8,
    pub last: Pid,
}

#[repr(C)]
#[derive(Clone, Copy)]
pub struct Mirror {
    pub processes: [ProcessRow; PROCESS_SLOTS],
    pub namespaces: [NamespaceRow; NAMESPACE_SLOTS],
}

// ---- writing: numbers for what C has no enum with values for; a state and a life differ in more than their names

pub fn state_kind(s: State) -> u8
    ensures { result ≡ state_kind s }
{
    match s {
        State::Running => 0,
        State::Stopped => 1,
        State::Ended(End::Exited(_)) => 2,
        State::Ended(End::Signaled(_)) => 3,
    }
}

pub fn state_end(s: State) -> u8
    ensures { result ≡ state_end s }
{
    match s {
        State::Running => 0, // nothing ended it
        State::Stopped => 0,
        State::Ended(End::Exited(k) | End::Signaled(k)) => k,
    }
}

fn life_kind(l: Life) -> u8
    ensures { result ≡ life_kind l }
{
    match l {
        Life::Unborn => 0,
        Life::Alive(_) => 1,
        Life::Dead => 2,
    }
}

fn life_init(l: Life) -> u8
    ensures { result ≡ life_init l }
{
    match l {
        Life::Alive(i) => i.0,
        Life::Unborn | Life::Dead => 0,
    }
}

impl From<Process> for ProcessRow {
    ghost from_gives = { λ p row. row ≡ process_row p };

    #[tactic(auto, unfolding(crate::specs::Mirror::process_row))]
    fn from(p: Process) -> ProcessRow {
        let pids = p.pids;
        ProcessRow {
            own: p.own,
            children: p.children,
            parent: p.parent,
            state: state_kind(p.state),
            end: state_end(p.state),
            reserved: 0,
            pids,
            handled: p.traits.handled,
            pending: p.traits.pending,
        }
    }
}

impl From<Namespace> for NamespaceRow {
    ghost from_gives = { λ n row. row ≡ namespace_row n };

    #[tactic(auto, unfolding(crate::specs::Mirror::namespace_row))]
    fn from(n: Namespace) -> NamespaceRow {
        NamespaceRow {
            parent: n.parent,
            level: n.level,
            life: life_kind(n.life),
            init: life_init(n.life),
            last: n.last,
        }
    }
}

// The mirror of a table.
pub fn mirror_of(t: Table) -> Mirror
    ensures { result ≡ mirror_of t }
{
    Mirror {
        processes: from_fn(|i| ProcessRow::from(t.processes[i])),
        namespaces: from_fn(|n| NamespaceRow::from(t.namespaces[n])),
    }
}

// ---- rows read

#[tactic(auto, using(table::proofs::Chains::chains), unfolding(crate::specs::Mirror::state_from))]
fn state(kind: u8, value: u8) -> State
    ensures { result ≡ state_from kind value }
{
    match kind {
        0 => State::Running,
        1 => State::Stopped,
        2 => State::Ended(End::Exited(value)),
        _ => State::Ended(End::Signaled(value)),
    }
}

#[tactic(auto, using(table::proofs::Chains::chains), unfolding(crate::specs::Mirror::life_from))]
fn life(kind: u8, init: u8) -> Life
    ensures { result ≡ life_from kind init }
{
    match kind {
        0 => Life::Unborn,
        1 => Life::Alive(ProcSlot(init)),
        _ => Life::Dead,
    }
}

impl From<ProcessRow> for Process {
    ghost from_gives = { λ row p. p ≡ process_from row };

    #[tactic(auto, unfolding(crate::specs::Mirror::process_from))]
    fn from(row: ProcessRow) -> Process {
        let pids = row.pids;
        Process {
            own: row.own,
            children: row.children,
            parent: row.parent,
            state: state(row.state, row.end),
            traits: Traits {
                handled: row.handled,
                pending: row.pending,
            },
            pids,
        }
    }
}

impl From<NamespaceRow> for Namespace {
    ghost from_gives = { λ row n. n ≡ namespace_from row };

    #[tactic(auto, unfolding(crate::specs::Mirror::namespace_from))]
    fn from(row: NamespaceRow) -> Namespace {
        Namespace {
            parent: row.parent,
            level: row.level,
            last: row.last,
            life: life(row.life, row.init),
        }
    }
}

// ---- bytes that no writer makes

impl ProcessRow {
    // What is read is written as these bytes, and the one that nothing needs is 0.
    fn is_written(&self) -> bool
        ensures { result ≡ is_process_row self.now }
    {
        let s = state(self.state, self.end);
        state_kind(s) == self.state && state_end(s) == self.end && self.reserved == 0
    }
}

impl NamespaceRow {
    // What is read is written as these bytes.
    fn is_written(&self) -> bool
        ensures { result ≡ is_namespace_row self.now }
    {
        let l = life(self.life, self.init);
        life_kind(l) == self.life && life_init(l) == self.init
    }
}

impl Mirror {
    // Each row, of an empty slot too, is one that a writer makes.
    fn is_written(&self) -> bool
        ensures { result ≡ is_written self.now }
    {
        self.processes.iter().all(|row| row.is_written())
            && self.namespaces.iter().all(|row| row.is_written())
    }
}

// ---- a mirror read

fn empty_table() -> Table
    ensures { result ≡ empty_table }
{
    Table {
        processes: [empty_process(); PROCESS_SLOTS],
        namespaces: [empty_namespace(); NAMESPACE_SLOTS],
    }
}

// The table whose mirror it is; the empty one, which isn't sound, where it is none's.
pub fn table_from(m: Mirror) -> Table
    ensures { result ≡ table_from m }
{
    if !m.is_written() {
        return empty_table();
    }
    Table {
        processes: from_fn(|i| Process::from(m.processes[i])),
        namespaces: from_fn(|n| Namespace::from(m.namespaces[n])),
    }
}
