// Following parents reaches the root init.
ghost use Rattle.std.specs.Prelude.{◌≡◌};
ghost use Rattle.table.specs.Limits.{process_slots};
ghost use Rattle.rules.specs.Read.{view};
ghost use Rattle.rules.specs.Sound.{reaches_root};
ghost use Rattle.sound.specs.Quick.{process_in, reach_ok};

use table::{PROCESS_SLOTS, ProcSlot, Table, at, column};

// The parents of all processes.
fn parents(t: &Table) -> [ProcSlot; PROCESS_SLOTS]
    ensures { process_in result ≡ (view t.now).parent }
{
    column(&t.processes, ProcSlot(0), |p| p.parent)
}

// Whether following parents from a slot reaches slot 0, in as many steps as there are slots: a longer chain comes to a
// slot twice and goes round for ever. What lies past the last slot reads as empty, with slot 0 for its parent.
#[tactic(auto, using(crate::proofs::Reaches::reaches))]
fn reaches_root(parents: &[ProcSlot; PROCESS_SLOTS], slot: ProcSlot) -> bool
    ensures { result ≡ reaches_root (process_in parents.now) process_slots slot.0 }
{
    let mut up = slot;
    for _ in 0..PROCESS_SLOTS {
        if up.0 == 0 {
            return true;
        }
        up = at(parents, up.0, ProcSlot(0));
    }
    up.0 == 0
}

// An empty slot reaches slot 0 too.
pub(crate) fn all_reach_root(t: &Table) -> bool
    ensures { result ≡ reach_ok (view t.now).parent }
{
    let parents = parents(t);
    (0..PROCESS_SLOTS).all(|i| reaches_root(&parents, ProcSlot(i as u8)))
}
