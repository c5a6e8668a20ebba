// The process table: its types, the fresh table, and how a record is read and put. Document 01 as definitions begins
// in specs/, and goes on in the specs/ of `rules` and `sameness`.
#![tactic(auto)]

ghost use Rattle.std.specs.Fn.{FnReturnsAt};
ghost use Rattle.std.specs.Prelude.{ℕ, ◌<◌, ◌≡◌, not, eqb, get_or, set, length};
ghost use Rattle.table.specs.Fresh.{empty_process, empty_namespace, fresh as fresh_table};
ghost use Rattle.table.specs.Traits.{no_traits, born_traits, ended_traits, with_signals};
ghost use Rattle.table.specs.Slots.{no_process, namespace, pid_at, is_running, is_ended, is_unborn, is_alive, is_dead, init_of, put, put_namespace};

// ---- the numbers of document 01, each named once

// One table: 64 process slots and 48 namespace slots (W-206).
pub const PROCESS_SLOTS: usize = 64;

pub const NAMESPACE_SLOTS: usize = 48;

// No slot, in a field that holds one. (It is no Option: the definitions, the theorems about any table and the bytes
// that a host keeps have 255.)
pub const NO_SLOT: u8 = 255;

// The root has level 0, the deepest namespaces level 32 (W-206); a process has one number for each level.
pub const LEVELS: usize = 33;

pub const DEEPEST: u8 = (LEVELS - 1) as u8;

// The greatest process number, and where the search for a free one starts again.
pub const GREATEST_PID: u16 = 32767;

pub const RESTART_PID: u16 = 300;

// How many numbers 16 bits hold, as a Pid has them.
pub const PID_VALUES: u32 = 65536;

// Signal numbers are 0 to 31, and 0 is no signal.
pub const SIGNALS: u8 = 32;

// Signals that document 01 treats by themselves.
pub const SIGKILL: u8 = 9;

pub const SIGCONT: u8 = 18;

pub const SIGSTOP: u8 = 19;

// The numbers that an exit can keep are 0 to 255.
pub const STATUSES: u16 = 256;

// ---- slots and numbers: three kinds, none of which can be passed for another. A host holds them too: hence repr(C).

// The slot of a process. NO_SLOT stands for none.
#[repr(C)]
#[derive(Clone, Copy, Default, PartialEq, Eq, PartialOrd, Ord)]
pub struct ProcSlot(pub u8);

// The slot of a namespace. NO_SLOT stands for none.
#[repr(C)]
#[derive(Clone, Copy, PartialEq, Eq, PartialOrd, Ord)]
pub struct NsSlot(pub u8);

// A process number, as one namespace sees it. 0 stands for none, as in the definitions, and so wherever a Pid is read.
#[repr(C)]
#[derive(Clone, Copy, PartialEq, Eq, PartialOrd, Ord)]
pub struct Pid(pub u16);

// ---- the table

// How a process ended: the number it gave at its end, or a signal.
#[derive(Clone, Copy, PartialEq, Eq)]
pub enum End {
    Exited(u8),
    Signaled(u8),
}

#[derive(Clone, Copy, PartialEq, Eq)]
pub enum State {
    Running,
    Stopped,
    Ended(End),
}

// What a process has and no rule of the tree reads: handled and pending signals, bit s for signal s.
#[derive(Clone, Copy, PartialEq, Eq)]
pub struct Traits {
    pub handled: u32,
    pub pending: u32,
}

// Own namespace, fixed at birth; children's namespace; parent; state; traits; and one number for each level from the
// root's to its own.
#[derive(Clone, Copy, PartialEq, Eq)]
pub struct Process {
    pub own: NsSlot,
    pub children: NsSlot,
    pub parent: ProcSlot,
    pub state: State,
    pub traits: Traits,
    pub pids: [Pid; LEVELS],
}

// The condition of a namespace: no process yet, alive with its init, or its init ended.
#[derive(Clone, Copy, PartialEq, Eq)]
pub enum Life {
    Unborn,
    Alive(ProcSlot),
    Dead,
}

#[derive(Clone, Copy, PartialEq, Eq)]
pub struct Namespace {
    pub parent: NsSlot,
    pub level: u8,
    pub last: Pid,
    pub life: Life,
}

// Slots are places in two arrays, and what a record names it names by its slot: document 01's form, which takes no
// heap.
#[derive(Clone, Copy)]
pub struct Table {
    pub processes: [Process; PROCESS_SLOTS],
    pub namespaces: [Namespace; NAMESPACE_SLOTS],
}

// ---- calls and answers

// What a signal does to its target: nothing, make it run, stop it, end it, or become pending.
#[derive(Clone, Copy, PartialEq, Eq)]
pub enum Action {
    Nothing,
    Resume,
    Stop,
    Finish,
    Pend,
}

// Arguments are whole 32-bit numbers; the calls themselves say which are good.
#[derive(Clone, Copy)]
pub enum Call {
    Clone,
    CloneNew,
    Unshare,
    Setns(i32),
    Kill(i32, i32),
    Exit(i32),
    Wait,
    Getpid,
    Getppid,
    Handle(i32, bool),
    Poll,
}

// Why a call was refused, in the order in which the reasons are tried. `rules`' specs/Answers.antt gives their numbers.
#[derive(Clone, Copy, PartialEq, Eq)]
pub enum Refusal {
    Unsound,
    NotRunning,
    Einval,
    Enosys,
    Esrch,
    Ebusy,
    Echild,
    Enospc,
    Enomem,
    Eagain,
}

// A refusal, a number, or a process that a wait removed: its number and how it ended.
#[derive(Clone, Copy)]
pub enum Answer {
    Refused(Refusal),
    Number(u16),
    Reaped(Pid, End),
}

// The answer, and beside it the slot of a child that was born, for the host alone.
#[derive(Clone, Copy)]
pub struct Reply {
    pub answer: Answer,
    pub child: ProcSlot,
}

// What a call gives: the reply, and the table then.
#[derive(Clone, Copy)]
pub struct Outcome {
    pub reply: Reply,
    pub table: Table,
}

// ---- traits

// Those of an empty slot.
pub fn no_traits() -> Traits
    ensures { result ≡ no_traits }
{
    Traits {
        handled: 0,
        pending: 0,
    }
}

impl Traits {
    // A child's, by its parent's.
    #[tactic(auto, unfolding(crate::specs::Traits::born_traits))]
    pub fn born(self) -> Traits
        ensures { result ≡ born_traits self }
    {
        let child = self.with_signals(0, 0);
        child
    }

    // What an end leaves of them. (Two sentences say no more than this for a child and for an end; a trait that a child
    // gets or an end keeps parts the two functions.)
    #[tactic(auto, unfolding(crate::specs::Traits::ended_traits))]
    pub fn ended(self) -> Traits
        ensures { result ≡ ended_traits self }
    {
        let left = self.with_signals(0, 0);
        left
    }

    // With these signals handled and pending.
    #[tactic(auto, unfolding(crate::specs::Traits::with_signals))]
    pub fn with_signals(self, handled: u32, pending: u32) -> Traits
        ensures { result ≡ with_signals self handled pending }
    {
        Traits {
            handled: handled,
            pending: pending,
            ..self
        }
    }
}

// ---- the fresh table

// An empty process slot: all zero, running. (This, the traits above and the namespace below are functions and no
// `Default`s: std derives none for an array of 33, and document 01 has a word for each.)
pub fn empty_process() -> Process
    ensures { result ≡ empty_process }
{
    let traits = no_traits();
    Process {
        own: NsSlot(0),
        children: NsSlot(0),
        parent: ProcSlot(0),
        state: State::Running,
        traits: traits,
        pids: [Pid(0); LEVELS],
    }
}

// An empty namespace slot: all zero, unborn.
pub fn empty_namespace() -> Namespace
    ensures { result ≡ empty_namespace }
{
    Namespace {
        parent: NsSlot(0),
        level: 0,
        last: Pid(0),
        life: Life::Unborn,
    }
}

// The fresh table: the root init alone, running, children's namespace the root, last number 1.
#[tactic(auto, unfolding(crate::specs::Fresh::fresh))]
pub fn fresh() -> Table
    ensures { result ≡ fresh_table }
{
    let p = empty_process();
    let n = empty_namespace();
    let mut pids = [Pid(0); LEVELS];
    pids[0] = Pid(1);
    let mut processes = [p; PROCESS_SLOTS];
    processes[0] = Process {
        parent: ProcSlot(NO_SLOT),
        pids: pids,
        ..p
    };
    let mut namespaces = [n; NAMESPACE_SLOTS];
    namespaces[0] = Namespace {
        parent: NsSlot(NO_SLOT),
        last: Pid(1),
        life: Life::Alive(ProcSlot(0)),
        ..n
    };
    Table {
        processes: processes,
        namespaces: namespaces,
    }
}

// ---- an array by a slot

// What an array has at a slot, and `past` past its end.
pub fn at<T: Copy, const N: usize>(items: &[T; N], slot: u8, past: T) -> T
    ensures { result ≡ get_or items.now slot past }
{
    items.get(slot as usize).copied().unwrap_or(past)
}

// Puts an item at a slot. Past an array's end there is nowhere to put it.
pub fn set_at<T: Copy, const N: usize>(items: &mut [T; N], slot: u8, item: T)
    ensures { items.new ≡ set items.old slot item }
{
    let i = slot as usize;
    if i < N {
        items[i] = item;
    }
}

// ---- what a function makes of each process

// At each slot what `of` returns for the process there.
pub fn column<T: Copy, F: Fn(&Process) -> T>(
    processes: &[Process; PROCESS_SLOTS],
    past: T,
    of: F,
) -> [T; PROCESS_SLOTS]
    requires { F.IsAlwaysCallable of }
    ensures length { length result ≡ length processes.now }
    ensures each { (i : ℕ) → i < length processes.now → FnReturnsAt F.Fn of (get_or processes.now i no_process) (get_or result i past) }
{
    let mut column = [past; PROCESS_SLOTS];
    for (i, p) in processes.iter().enumerate() {
        column[i] = of(p);
    }
    column
}

// ---- reading a record

impl Process {
    // Whether the slot holds a process: each has a number at the root's level.
    pub fn is_taken(&self) -> bool
        ensures { result ≡ not (eqb (pid_at self.now 0) 0) }
    {
        self.pids[0] != Pid(0)
    }

    pub fn has_ended(&self) -> bool
        ensures { result ≡ is_ended self.now.state }
    {
        matches!(self.state, State::Ended(_)) // a stopped one can be resumed
    }

    pub fn is_running(&self) -> bool
        ensures { result ≡ is_running self.now.state }
    {
        matches!(self.state, State::Running) // a stopped one waits for signal 18
    }

    // The number at a level, and none past the deepest.
    pub fn pid_at(&self, level: u8) -> Pid
        ensures { result.0 ≡ pid_at self.now level }
    {
        at(&self.pids, level, Pid(0))
    }
}

impl Namespace {
    pub fn is_unborn(&self) -> bool
        ensures { result ≡ is_unborn self.now.life }
    {
        matches!(self.life, Life::Unborn)
    }

    pub fn is_alive(&self) -> bool
        ensures { result ≡ is_alive self.now.life }
    {
        matches!(self.life, Life::Alive(_))
    }

    pub fn is_dead(&self) -> bool
        ensures { result ≡ is_dead self.now.life }
    {
        matches!(self.life, Life::Dead)
    }

    // The init of a living namespace, or NO_SLOT, which is what an orphan's parent becomes where there is none.
    pub fn init(&self) -> ProcSlot
        ensures { result.0 ≡ init_of self.now.life }
    {
        match self.life {
            Life::Unborn => ProcSlot(NO_SLOT),
            Life::Alive(slot) => slot,
            Life::Dead => ProcSlot(NO_SLOT),
        }
    }
}

// ---- a table by its slots

impl Table {
    // The process at a slot. What lies past the last slot reads as empty.
    pub fn process(&self, slot: ProcSlot) -> Process
        ensures { result ≡ get_or self.now.processes slot.0 empty_process }
    {
        at(&self.processes, slot.0, empty_process())
    }

    // The namespace at a slot. What lies past the last slot reads as empty.
    pub fn namespace(&self, slot: NsSlot) -> Namespace
        ensures { result ≡ namespace self.now slot.0 }
    {
        at(&self.namespaces, slot.0, empty_namespace())
    }

    // The table with a process put at a slot. Past the last slot there is nowhere to put it.
    pub fn with_process(mut self, slot: ProcSlot, p: Process) -> Table
        ensures { result ≡ put self slot.0 p }
    {
        set_at(&mut self.processes, slot.0, p);
        self
    }

    // The table with a namespace put at a slot. Past the last slot there is nowhere to put it.
    pub fn with_namespace(mut self, slot: NsSlot, n: Namespace) -> Table
        ensures { result ≡ put_namespace self slot.0 n }
    {
        set_at(&mut self.namespaces, slot.0, n);
        self
    }
}
