// Which namespaces something holds, as marks; and who holds an unborn one, which has one holder.
ghost use Rattle.std.specs.Prelude.{◌≡◌};
ghost use Rattle.table.proofs.MarkLoops.{Marks};
ghost use Rattle.table.specs.Limits.{namespace_slots};
ghost use Rattle.rules.specs.Read.{view};
ghost use Rattle.sound.specs.Quick.{process_row, namespace_row, mark_namespace, held_by_processes, held_by_children, key_in, unborn_key, unborn_keys, differ};

use super::numbers::all_differ;
use table::{NAMESPACE_SLOTS, Namespace, NsSlot, PROCESS_SLOTS, Process, Table, column, set_at};
use tree::{holds_namespace, mark_process};

// ---- which namespaces something holds

// A namespace but the root holds its parent.
fn mark_namespace(marks: &mut [bool; NAMESPACE_SLOTS], n: NsSlot, s: &Namespace)
    ensures { marks.new ≡ mark_namespace marks.old n.0 (namespace_row n.0 s.now) }
{
    if n.0 != 0 && holds_namespace(n, s) {
        set_at(marks, s.parent.0, true);
    }
}

// The root, and what the processes hold. (`ending` has such a pass too, without the root: each says what its own
// definition of marks asks.)
pub(crate) fn held_by_processes(t: &Table) -> [bool; NAMESPACE_SLOTS]
    ensures { Marks namespace_slots result (held_by_processes (view t.now)) }
{
    let mut marks = [false; NAMESPACE_SLOTS];
    marks[0] = true;
    for p in &t.processes {
        mark_process(&mut marks, p);
    }
    marks
}

// What the namespaces hold.
pub(crate) fn held_by_children(namespaces: &[Namespace; NAMESPACE_SLOTS]) -> [bool; NAMESPACE_SLOTS]
    ensures { Marks namespace_slots result (held_by_children namespaces.now) }
{
    let mut marks = [false; NAMESPACE_SLOTS];
    for (n, s) in namespaces.iter().enumerate() {
        mark_namespace(&mut marks, NsSlot(n as u8), s);
    }
    marks
}

// ---- who holds an unborn one

// The unborn namespace that a process holds, or 0.
#[tactic(auto, using(table::proofs::Chains::chains), unfolding(crate::specs::Quick::unborn_key))]
fn unborn_key(p: &Process, inner: &Namespace) -> u32
    ensures { result ≡ unborn_key (process_row p.now) (namespace_row p.now.children.0 inner.now) }
{
    if p.is_taken() && holds_namespace(p.children, inner) && inner.is_unborn() {
        p.children.0 as u32
    } else {
        0
    }
}

// The unborn namespaces that processes hold.
fn unborn_keys(t: &Table) -> [u32; PROCESS_SLOTS]
    ensures { key_in result ≡ unborn_keys (view t.now) }
{
    column(&t.processes, 0, |p| unborn_key(p, &t.namespace(p.children)))
}

// Each unborn namespace has one holder.
pub(crate) fn holders_differ(t: &Table) -> bool
    ensures { result ≡ differ (unborn_keys (view t.now)) }
{
    all_differ(&unborn_keys(t))
}
