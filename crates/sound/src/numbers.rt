// No two processes share a number in a namespace: one key for each process and level, of which no two are equal.
ghost use Rattle.std.specs.Prelude.{◌≡◌, ◌<◌, ltb};
ghost use Rattle.table.specs.Limits.{levels as level_count, process_slots};
ghost use Rattle.rules.specs.Read.{view};
ghost use Rattle.table.specs.Tests.{when◌then◌else◌, all};
ghost use Rattle.tree.specs.Tree.{slot_in, level_in};
ghost use Rattle.sound.specs.Quick.{process_row, process_at, key_in, differs_at, differ, raised, itself, pid_key, pid_keys};

use table::{
    DEEPEST, NAMESPACE_SLOTS, NsSlot, PID_VALUES, PROCESS_SLOTS, Process, Table, at, column,
};
use tree::Tree;

// ---- keys; one of 0 is none, as in the definitions of specs/Quick.antt, here and in holders.rt

// Whether the key at i is 0 or no key below i is the same.
fn differs(keys: &[u32; PROCESS_SLOTS], i: usize) -> bool
    requires { i < process_slots }
    ensures { result ≡ differs_at (key_in keys.now) i }
{
    keys[i] == 0 || !keys[..i].contains(&keys[i])
}

// Whether no two keys but 0 are equal.
pub(crate) fn all_differ(keys: &[u32; PROCESS_SLOTS]) -> bool
    ensures { result ≡ differ (key_in keys.now) }
{
    (0..PROCESS_SLOTS).all(|i| differs(keys, i))
}

// ---- the namespace of a process at a level

// Who is below a level goes one up.
fn raise_one(tree: &Tree, top: NsSlot, own: u8, level: u8) -> NsSlot
    ensures { result.0 ≡ (when ltb level own then slot_in tree.now.parents top.0 else top.0) }
{
    if level < own { tree.parent(top) } else { top }
}

// The namespace above each at a level, in place of those one level down.
fn raise(tree: &Tree, tops: &mut [NsSlot; NAMESPACE_SLOTS], level: u8)
    ensures { slot_in tops.new ≡ raised (slot_in tree.now.parents) (level_in tree.now.levels) level (slot_in tops.old) }
{
    for (n, own) in tree.levels.iter().enumerate() {
        tops[n] = raise_one(tree, tops[n], *own, level);
    }
}

// Each namespace itself.
fn themselves() -> [NsSlot; NAMESPACE_SLOTS]
    ensures { slot_in result ≡ itself }
{
    let mut tops = [NsSlot(0); NAMESPACE_SLOTS];
    for n in 0..NAMESPACE_SLOTS {
        tops[n] = NsSlot(n as u8);
    }
    tops
}

// ---- a number and its namespace as a key

// The namespace of a process at a level and its number there as one key, or 0 where it has none.
#[tactic(auto, using(table::proofs::Chains::chains), unfolding(crate::specs::Quick::pid_key))]
fn pid_key(tops: &[NsSlot; NAMESPACE_SLOTS], level: u8, p: &Process) -> u32
    ensures { result ≡ pid_key (slot_in tops.now) level (process_row p.now) }
{
    let number = p.pid_at(level);
    if number.0 == 0 {
        return 0;
    }
    let top = at(tops, p.own.0, NsSlot(0));
    top.0 as u32 * PID_VALUES + number.0 as u32
}

// The keys of all processes at a level.
fn pid_keys(t: &Table, tops: &[NsSlot; NAMESPACE_SLOTS], level: u8) -> [u32; PROCESS_SLOTS]
    ensures { key_in result ≡ (λ i. pid_key (slot_in tops.now) level (process_at (view t.now) i)) }
{
    column(&t.processes, 0, |p| pid_key(tops, level, p))
}

// ---- all levels

// No two processes have the same number in the same namespace.
pub(crate) fn pids_differ(t: &Table) -> bool
    ensures { result ≡ all level_count (λ k. differ (pid_keys (view t.now) k)) }
{
    let tree = Tree::of(&t.namespaces);
    let mut tops = themselves();
    for k in 0..=DEEPEST {
        let level = DEEPEST - k;
        raise(&tree, &mut tops, level);
        if !all_differ(&pid_keys(t, &tops, level)) {
            return false;
        }
    }
    true
}
