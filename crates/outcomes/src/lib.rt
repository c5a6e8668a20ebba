// Whether a call is refused, and what it gives back: a refusal, or an answer and the table after it.
#![tactic(auto)]

ghost use Rattle.outcomes.specs.Verdicts.{settled as settled_as};
ghost use Rattle.std.specs.Prelude.{◌≡◌, Ok, Err};
ghost use Rattle.rules.specs.Answers.{refused as refused_as, granted as granted_as, answers as answers_as};
ghost use Rattle.table.specs.Tests.{when◌then◌else◌};

use table::{Answer, NO_SLOT, Outcome, ProcSlot, Refusal, Reply, Table};

// One test of a call. A call makes them in document 01's order, each with `?`: the first that holds refuses.
pub fn refuse_if(test: bool, why: Refusal) -> Result<(), Refusal>
    ensures { result ≡ (when test then Err why else Ok tt) }
{
    if test {
        return Err(why);
    }
    Ok(())
}

// A refusal leaves the whole table unchanged and tells the host no slot.
pub fn refused(t: Table, why: Refusal) -> Outcome
    ensures { result ≡ refused_as t why }
{
    Outcome {
        reply: Reply {
            answer: Answer::Refused(why),
            child: ProcSlot(NO_SLOT),
        },
        table: t,
    }
}

// A call that is granted tells no slot either, but where a child is born.
pub fn granted(t: Table, answer: Answer) -> Outcome
    ensures { result ≡ granted_as t answer }
{
    Outcome {
        reply: Reply {
            answer: answer,
            child: ProcSlot(NO_SLOT),
        },
        table: t,
    }
}

pub fn answers(t: Table, k: u16) -> Outcome
    ensures { result ≡ answers_as t k }
{
    granted(t, Answer::Number(k))
}

// What a call on a table gives, by what it came to.
pub fn settled(t: Table, made: Result<Outcome, Refusal>) -> Outcome
    ensures { result ≡ settled_as t made }
{
    made.unwrap_or_else(|why| refused(t, why))
}
