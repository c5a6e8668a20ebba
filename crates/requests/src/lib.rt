// A call as a host names it, and a reply as a host is told it: numbers alone.
#![tactic(auto)]

ghost use Rattle.std.specs.Prelude.{◌≡◌};
ghost use Rattle.rules.specs.Answers.{number_of, refusal_number, is_refused};
ghost use Rattle.requests.specs.Requests.{asked_by, end_kind, end_value, told_of, no_call};

use mirror::{state_end, state_kind};
use table::{Answer, Call, NO_SLOT, ProcSlot, Refusal, Reply, State};

// ---- the numbers of the calls, which C writes; one is never given to another call

const CLONE: u32 = 1;

const CLONE_NEW: u32 = 2;

const UNSHARE: u32 = 3;

const SETNS: u32 = 4;

const KILL: u32 = 5;

const EXIT: u32 = 6;

const WAIT: u32 = 7;

const GETPID: u32 = 8;

const GETPPID: u32 = 9;

const HANDLE: u32 = 10;

const UNHANDLE: u32 = 11;

const POLL: u32 = 12;

// What a request is told whose number no call has.
const NO_CALL: i32 = -1002;

// ---- requests and what is told

// A call by its number, and its arguments. What a call does not take is not looked at.
#[repr(C)]
#[derive(Clone, Copy)]
pub struct Request {
    pub call: u32,
    pub a: i32,
    pub b: i32,
    pub c: i32,
}

// The answer's number, the slot of a child that was born, and how a process ended that a wait removed, as in its row.
#[repr(C)]
#[derive(Clone, Copy)]
pub struct Told {
    pub answer: i32,
    pub child: ProcSlot,
    pub state: u8,
    pub end: u8,
}

// ---- the call of a request

// The call that is asked for: none where the number is no call's.
#[tactic(auto, using(table::proofs::Chains::chains), unfolding(crate::specs::Requests::asked_by, crate::specs::Requests::plain_call))]
pub fn asked_by(r: Request) -> Option<Call>
    ensures { result ≡ asked_by r }
{
    match r.call {
        CLONE => Some(Call::Clone),
        CLONE_NEW => Some(Call::CloneNew),
        UNSHARE => Some(Call::Unshare),
        SETNS => Some(Call::Setns(r.a)),
        KILL => Some(Call::Kill(r.a, r.b)),
        EXIT => Some(Call::Exit(r.a)),
        WAIT => Some(Call::Wait),
        GETPID => Some(Call::Getpid),
        GETPPID => Some(Call::Getppid),
        HANDLE => Some(Call::Handle(r.a, true)),
        UNHANDLE => Some(Call::Handle(r.a, false)),
        POLL => Some(Call::Poll),
        _ => None,
    }
}

// ---- what is told of a reply

#[tactic(auto, unfolding(rules::specs::Answers::refusal_number))]
fn refusal_number(e: Refusal) -> i32
    ensures { result ≡ refusal_number e }
{
    match e {
        Refusal::Unsound => -1000,
        Refusal::NotRunning => -1001,
        Refusal::Einval => -22,
        Refusal::Enosys => -38,
        Refusal::Esrch => -3,
        Refusal::Ebusy => -16,
        Refusal::Echild => -10,
        Refusal::Enospc => -28,
        Refusal::Enomem => -12,
        Refusal::Eagain => -11,
    }
}

#[tactic(auto, unfolding(rules::specs::Answers::number_of))]
fn number_of(a: Answer) -> i32
    ensures { result ≡ number_of a }
{
    match a {
        Answer::Refused(e) => refusal_number(e),
        Answer::Number(k) => i32::from(k),
        Answer::Reaped(pid, _) => i32::from(pid.0),
    }
}

#[tactic(auto, using(crate::proofs::Laws::told_refused), unfolding(rules::specs::Answers::is_refused, rules::specs::Answers::number_of))]
pub fn is_refused(a: Answer) -> bool
    ensures { result ≡ is_refused a }
{
    matches!(a, Answer::Refused(_))
}

// How a process ended that a wait removed, in the two bytes of its row: 0 of any other answer.
fn end_bytes(a: Answer) -> (u8, u8)
    ensures { result ≡ (end_kind a, end_value a) }
{
    match a {
        Answer::Reaped(_, e) => {
            let s = State::Ended(e);
            (state_kind(s), state_end(s))
        }
        Answer::Refused(_) | Answer::Number(_) => (0, 0),
    }
}

// What a host is told of a reply. (As `mirror_of` and `table_from` it is known by its name, so it is no `From`.)
pub fn told_of(r: Reply) -> Told
    ensures { result ≡ told_of r }
{
    let (state, end) = end_bytes(r.answer);
    Told {
        answer: number_of(r.answer),
        child: r.child,
        state,
        end,
    }
}

#[tactic(auto, unfolding(crate::specs::Requests::no_call))]
pub fn no_call() -> Told
    ensures { result ≡ no_call }
{
    Told {
        answer: NO_CALL,
        child: ProcSlot(NO_SLOT),
        state: 0,
        end: 0,
    }
}
