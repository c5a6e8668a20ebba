// A namespace by itself and with its parent and its init.
ghost use Rattle.std.specs.Prelude.{◌≡◌, suc, eqb};
ghost use Rattle.table.specs.Slots.{namespace, is_unborn, is_dead, init_of};
ghost use Rattle.rules.specs.Read.{view};
ghost use Rattle.table.specs.Tests.{◌implies◌, agree};
ghost use Rattle.sound.specs.Quick.{process_row, process_at, init_ok, life_ok, place_ok, filled_ok, namespace_ok, namespaces_ok};
ghost use Rattle.sound.specs.Records.{place_row, above_row};

use super::holders::{held_by_children, held_by_processes};
use table::{DEEPEST, GREATEST_PID, Namespace, NsSlot, Process, Table};
use tree::{holds_namespace, is_blank_namespace};

// A namespace slot with what stands there, and the records that its namespace names: its parent and its init.
#[derive(Drop)]
struct Place {
    slot: NsSlot,
    namespace: Namespace,
    above: Namespace,
    init: Process,
}

impl Place {
    // That of a table.
    #[tactic(auto, using(crate::proofs::Records::row_at))]
    fn of(t: &Table, slot: NsSlot, s: Namespace) -> Place
        ensures slot { result.slot ≡ slot }
        ensures namespace { result.namespace ≡ s }
        ensures above { result.above ≡ namespace t.now s.parent.0 }
        ensures init { process_row result.init ≡ process_at (view t.now) (init_of s.life) }
    {
        Place {
            slot,
            namespace: s,
            above: t.namespace(s.parent),
            init: t.process(s.init()),
        }
    }

    // ---- its condition

    // The init of a living namespace belongs to it, has not ended and has number 1 there.
    #[tactic(auto, using(table::proofs::Chains::chains), unfolding(crate::specs::Quick::init_ok))]
    fn init_ok(&self) -> bool
        ensures { result ≡ init_ok self.now.slot.0 (place_row self.now) (process_row self.now.init) }
    {
        self.init.is_taken()
            && !self.init.has_ended()
            && self.init.own == self.slot
            && self.init.pid_at(self.namespace.level).0 == 1
    }

    // An unborn namespace has given no number.
    fn unborn_ok(&self) -> bool
        ensures { result ≡ (is_unborn self.now.namespace.life implies eqb self.now.namespace.last.0 0) }
    {
        !self.namespace.is_unborn() || self.namespace.last.0 == 0
    }

    // A namespace by its condition. A dead one is held to nothing here.
    #[tactic(auto, using(table::proofs::Chains::chains), unfolding(crate::specs::Quick::life_ok))]
    fn life_ok(&self) -> bool
        ensures { result ≡ life_ok self.now.slot.0 (place_row self.now) (process_row self.now.init) }
    {
        if self.namespace.is_alive() {
            self.init_ok()
        } else {
            self.unborn_ok()
        }
    }

    // ---- its place below its parent

    // It is one level down.
    fn is_one_down(&self) -> bool
        ensures { result ≡ eqb self.now.namespace.level (suc self.now.above.level) }
    {
        self.namespace.level as u16 == self.above.level as u16 + 1
    }

    // What is below a dead namespace is dead.
    fn dead_ok(&self) -> bool
        ensures { result ≡ (is_dead self.now.above.life implies is_dead self.now.namespace.life) }
    {
        !self.above.is_dead() || self.namespace.is_dead()
    }

    // Both, and what its parent and its level are held to.
    #[tactic(auto, using(table::proofs::Chains::chains), unfolding(crate::specs::Quick::place_ok))]
    fn place_ok(&self) -> bool
        ensures { result ≡ place_ok (place_row self.now) (above_row self.now) }
    {
        holds_namespace(self.namespace.parent, &self.above)
            && self.is_one_down()
            && self.namespace.level <= DEEPEST
            && !self.above.is_unborn()
            && self.dead_ok()
    }

    // ---- the slot

    // Whether something stands there.
    fn is_filled(&self) -> bool
        ensures { result ≡ (place_row self.now).taken }
    {
        holds_namespace(self.slot, &self.namespace)
    }

    // What stands there, or that it is blank.
    #[tactic(auto, using(table::proofs::Chains::chains), unfolding(crate::specs::Quick::filled_ok, crate::specs::Quick::blank_namespace))]
    fn filled_ok(&self) -> bool
        ensures { result ≡ filled_ok self.now.slot.0 (place_row self.now) (above_row self.now) (process_row self.now.init) }
    {
        if self.is_filled() {
            self.life_ok() && (self.slot.0 == 0 || self.place_ok())
        } else {
            is_blank_namespace(&self.namespace)
        }
    }

    // The same, and whether it is taken exactly if something holds it.
    #[tactic(auto, using(table::proofs::Chains::chains), unfolding(crate::specs::Quick::namespace_ok))]
    fn namespace_ok(&self, held: bool) -> bool
        ensures { result ≡ namespace_ok self.now.slot.0 held (place_row self.now) (above_row self.now) (process_row self.now.init) }
    {
        self.namespace.last.0 <= GREATEST_PID && self.is_filled() == held && self.filled_ok()
    }
}

// ---- all slots

// Each namespace slot, with the records that its namespace names.
pub(crate) fn namespaces_ok(t: &Table) -> bool
    ensures { result ≡ namespaces_ok (view t.now) }
{
    let by_process = held_by_processes(t);
    let by_child = held_by_children(&t.namespaces);
    for (n, s) in t.namespaces.iter().enumerate() {
        let place = Place::of(t, NsSlot(n as u8), *s);
        if !place.namespace_ok(by_process[n] | by_child[n]) {
            return false;
        }
    }
    true
}
