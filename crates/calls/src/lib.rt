// One call on any table, by any caller.
#![tactic(auto)]

ghost use Rattle.std.proofs.Math.Bool.{So};
ghost use Rattle.std.specs.Prelude.{true, ◌≡◌};
ghost use Rattle.rules.specs.Read.{view};
ghost use Rattle.outcomes.specs.Verdicts.{settled};
ghost use Rattle.rules.specs.Sound.{sound, sound as sound_as};
ghost use Rattle.rules.specs.Step.{runs, make as make_of, step as step_of};

use callers::{getpid, getppid};
use clones::{clone, clone_new};
use handlers::{handle, poll};
use kills::kill;
use namespaces::{setns, unshare};
use outcomes::{refuse_if, settled};
use sound::is_sound;
use table::{Call, Outcome, ProcSlot, Refusal, Table};
use waits::{exit, wait};

// A call by a caller that may call. (Of another one nothing is said: `step` refuses it before.) Which calls there are
// is closed, so they are arms and no closures. Each is a function of a table and a caller, as its definition is: a
// struct of both would be taken apart again in each.
// (Each call is `#[inline(never)]` in its crate: built into this one, all would have their tables in one frame, which
// a call that ends nothing takes too: `host/c/stack.c`.)
fn make(t: Table, caller: ProcSlot, call: Call) -> Result<Outcome, Refusal>
    ensures { So (sound t) → So (runs (view t) caller.0) → settled t result ≡ make_of t caller.0 call }
{
    match call {
        Call::Clone => clone(t, caller),
        Call::CloneNew => clone_new(t, caller),
        Call::Unshare => unshare(t, caller),
        Call::Setns(n) => setns(t, caller, n),
        Call::Kill(n, s) => kill(t, caller, n, s),
        Call::Exit(s) => exit(t, caller, s),
        Call::Wait => wait(t, caller),
        Call::Getpid => Ok(getpid(t, caller)),
        Call::Getppid => Ok(getppid(t, caller)),
        Call::Handle(s, on) => handle(t, caller, s, on),
        Call::Poll => Ok(poll(t, caller)),
    }
}

// A call by any caller, on a table that is sound or not, as it was found.
fn attempt(t: Table, sound: bool, caller: ProcSlot, call: Call) -> Result<Outcome, Refusal>
    ensures { sound ≡ sound_as t → settled t result ≡ step_of t caller.0 call }
{
    refuse_if(!sound, Refusal::Unsound)?;
    let p = t.process(caller);
    refuse_if(!p.is_taken(), Refusal::NotRunning)?;
    refuse_if(!p.is_running(), Refusal::NotRunning)?;
    make(t, caller, call)
}

// One call on any table, by any caller. A table that is known to be sound is not checked. (Of one that is called so and
// is not, nothing is said: so any table may be passed, which a type of sound tables would not allow.)
pub fn step_known(t: Table, known: bool, caller: ProcSlot, call: Call) -> Outcome
    ensures { (known ≡ true → So (sound t)) → result ≡ step_of t caller.0 call }
{
    let sound = known || is_sound(t);
    settled(t, attempt(t, sound, caller, call))
}

// The same, with nothing known of the table: it is checked.
pub fn step(t: Table, caller: ProcSlot, call: Call) -> Outcome
    ensures { result ≡ step_of t caller.0 call }
{
    step_known(t, false, caller, call)
}
