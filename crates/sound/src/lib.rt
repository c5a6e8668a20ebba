// The check of a whole table, in passes. What a pass does at a slot it does with the records that it finds there.
#![tactic(auto, using(table::proofs::Chains::chains))]

mod holders;
mod namespaces;
mod numbers;
mod processes;
mod reach;

ghost use Rattle.std.specs.Prelude.{◌≡◌};
ghost use Rattle.rules.specs.Read.{view};
ghost use Rattle.rules.specs.Sound.{root_process, root_namespace, sound};
ghost use Rattle.sound.specs.Quick.{quick};

use holders::holders_differ;
use namespaces::namespaces_ok;
use numbers::pids_differ;
use processes::processes_ok;
use reach::all_reach_root;
use table::{NO_SLOT, Table};

// ---- the root

// The root init, in slot 0.
#[tactic(auto, using(table::proofs::Chains::chains), unfolding(rules::specs::Sound::root_process, rules::specs::Read::living, rules::specs::Read::taken))]
fn root_process_ok(t: &Table) -> bool
    ensures { result ≡ root_process (view t.now) }
{
    let p = &t.processes[0];
    t.namespaces[0].init().0 == 0
        && p.is_taken()
        && !p.has_ended()
        && p.own.0 == 0
        && p.pid_at(0).0 == 1
        && p.parent.0 == NO_SLOT
}

// The root namespace, in slot 0.
#[tactic(auto, using(table::proofs::Chains::chains), unfolding(rules::specs::Sound::root_namespace))]
fn root_namespace_ok(t: &Table) -> bool
    ensures { result ≡ root_namespace (view t.now) }
{
    let n = &t.namespaces[0];
    n.is_alive() && n.level == 0 && n.parent.0 == NO_SLOT
}

// ---- all of it

// All passes, one after the other: what they say together is what soundness says.
#[tactic(auto, using(table::proofs::Chains::chains), unfolding(crate::specs::Quick::quick))]
fn passes(t: &Table) -> bool
    ensures { result ≡ quick (view t.now) }
{
    root_process_ok(t)
        && root_namespace_ok(t)
        && processes_ok(t)
        && namespaces_ok(t)
        && all_reach_root(t)
        && holders_differ(t)
        && pids_differ(t)
}

// Whether a table is sound.
pub fn is_sound(t: Table) -> bool
    ensures { result ≡ sound t }
{
    passes(&t)
}
