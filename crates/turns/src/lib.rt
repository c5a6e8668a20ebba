// One call on the table that a host holds.
#![tactic(auto)]

ghost use Rattle.std.specs.Prelude.{◌≡◌};
ghost use Rattle.turns.specs.Turns.{slot_of, given_back, turn as turn_of};

use calls::step;
use mirror::{Mirror, mirror_of, table_from};
use requests::{Request, Told, asked_by, is_refused, no_call, told_of};
use table::{NO_SLOT, Outcome, PROCESS_SLOTS, ProcSlot};

// What the host is told, and what it holds then.
#[derive(Clone, Copy)]
pub struct Done {
    pub told: Told,
    pub mirror: Mirror,
}

// The slot of a caller, which a host names by a whole number: none where it is past the table's end. (Its low bits
// alone would take 256 for the root init.) `step` takes NO_SLOT as it takes any caller, so there is no Option between.
#[tactic(auto, using(table::proofs::Chains::chains), unfolding(crate::specs::Turns::slot_of))]
fn slot_of(caller: u32) -> ProcSlot
    ensures { result.0 ≡ slot_of caller }
{
    if caller < PROCESS_SLOTS as u32 {
        return ProcSlot(caller as u8);
    }
    ProcSlot(NO_SLOT)
}

// A refusal gives back what was held, to the last bit.
#[tactic(auto, using(crate::proofs::Laws::given_refused, crate::proofs::Laws::given_granted))]
fn given_back(m: Mirror, o: Outcome) -> Done
    ensures { result ≡ given_back m o }
{
    let reply = o.reply; // read in place, it would make the frame of a call larger by a table
    let told = told_of(reply);
    if is_refused(reply.answer) {
        return Done { told, mirror: m };
    }
    Done {
        told,
        mirror: mirror_of(o.table),
    }
}

// One call by any caller, on whatever the host holds.
#[tactic(auto, using(crate::proofs::Laws::turn_nothing, crate::proofs::Laws::turn_makes))]
pub fn turn(m: Mirror, caller: u32, request: Request) -> Done
    ensures { result ≡ turn_of m caller request }
{
    match asked_by(request) {
        None => Done {
            told: no_call(),
            mirror: m,
        },
        Some(call) => given_back(m, step(table_from(m), slot_of(caller), call)),
    }
}
