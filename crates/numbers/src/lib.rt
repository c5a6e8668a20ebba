// "A number": the search for the next process number of a namespace.
#![tactic(auto, using(table::proofs::Chains::chains))]

mod climbs;

ghost use Rattle.std.specs.Prelude.{false, not, ◌≡◌, ◌<◌, get_or, IfSome, unwrap_or};
ghost use Rattle.table.specs.Limits.{process_slots, greatest_pid};
ghost use Rattle.table.specs.Slots.{no_process};
ghost use Rattle.table.specs.Tests.{any, lowest};
ghost use Rattle.tree.specs.Tree.{slot_in, level_in, named_from};
ghost use Rattle.numbers.specs.Climbs.{below_in};
ghost use Rattle.numbers.specs.Holders.{own_in, pid_in, unheld_in};
ghost use Rattle.numbers.specs.Marks.{marks as count, held_pid as held_at, first_of, by_marks, place_from, pid_found, LowestUpTo};
ghost use Rattle.rules.specs.Pids.{free_pid, next_pid};
ghost use Rattle.rules.specs.Read.{view};

use climbs::Climbs;
use table::{GREATEST_PID, NsSlot, PROCESS_SLOTS, Pid, Process, RESTART_PID, Table, column};
use tree::Tree;

// ---- one candidate after the other

// The lowest number from `from` to GREATEST_PID that nobody seen from n has there. Document 01 names this form: a loop
// over candidates around one over slots, left by its label on a clash, that yields what was found by `break`.
fn free_from(t: &Table, n: NsSlot, from: Pid) -> Option<Pid>
    ensures { LowestUpTo greatest_pid (free_pid (view t.now) n.0) from.0 result }
{
    let tree = Tree::of(&t.namespaces);
    let level = tree.level(n);
    let mut candidate = from.0;
    'candidates: loop {
        if GREATEST_PID < candidate {
            break None;
        }
        for p in &t.processes {
            if tree.names(n, level, Pid(candidate), p) {
                candidate += 1;
                continue 'candidates;
            }
        }
        break Some(Pid(candidate));
    }
}

// The lowest free number above n's last, or else the lowest free from RESTART_PID: there always is one.
fn one_by_one(t: &Table, n: NsSlot) -> Pid
    ensures { result.0 ≡ next_pid (view t.now) n.0 }
{
    let last = t.namespace(n).last.0;
    // A last number past the greatest has none above it, and the sum could wrap.
    if last < GREATEST_PID {
        if let Some(above) = free_from(t, n, Pid(last + 1)) {
            return above;
        }
    }
    free_from(t, n, Pid(RESTART_PID)).unwrap()
}

// ---- by marks (W-202): one pass over the holders of numbers tells of MARKS numbers at once which are taken

// As many as there are processes: so they run out only where every process has one of them.
const MARKS: usize = PROCESS_SLOTS;

// What a search in a namespace needs of a process: its own namespace, and its number at that namespace's level. A pid
// of 0 stands for no number.
#[derive(Clone, Copy)]
pub struct Holder {
    pub own: NsSlot,
    pub pid: Pid,
}

// The number of a process at a level; of an empty slot none, whatever its record says.
pub fn held_pid(p: &Process, level: u8) -> Pid
    ensures { result.0 ≡ held_at p.now level }
{
    if !p.is_taken() {
        return Pid(0); // nobody is there
    }
    p.pid_at(level)
}

// The processes as holders of numbers at a level.
pub fn holders(processes: &[Process; PROCESS_SLOTS], level: u8) -> [Holder; PROCESS_SLOTS]
    ensures own { own_in result ≡ (λ i. (get_or processes.now i no_process).own.0) }
    ensures pid { pid_in result ≡ (λ i. held_at (get_or processes.now i no_process) level) }
{
    let nobody = Holder {
        own: NsSlot(0),
        pid: Pid(0),
    };
    let holder = |p: &Process| Holder {
        own: p.own,
        pid: held_pid(p, level),
    };
    column(processes, nobody, holder)
}

// The place of the mark that a holder makes: that of its number among the MARKS numbers above `last`. It makes none
// where the number is not one of them or the holder is not seen. The climb comes last, since it takes longest. (Pids
// are subtracted here, so they are compared by their numbers.)
fn place_above(climbs: &mut Climbs, last: Pid, holder: &Holder) -> Option<usize>
    ensures place { unwrap_or result count ≡ place_from count last.0 holder.now.pid.0 (below_in climbs.old holder.now.own.0) }
    ensures within { IfSome result (λ k. k < count) }
    ensures same { climbs.new ≡ climbs.old }
{
    if holder.pid.0 <= last.0 {
        return None;
    }
    let place = (holder.pid.0 - last.0 - 1) as usize;
    if place >= MARKS {
        return None;
    }
    let seen = climbs.is_below(holder.own);
    if !seen {
        return None;
    }
    Some(place)
}

// The first place without a mark.
fn first_unmarked(marks: &[bool; MARKS]) -> Option<usize>
    ensures place { unwrap_or result count ≡ lowest (λ k. not (get_or marks.now k false)) count 0 }
    ensures within { IfSome result (λ k. k < count) }
{
    marks.iter().position(|marked| !*marked)
}

// The lowest of the MARKS numbers above `last` that nobody has in the namespace of the climbs, up to GREATEST_PID.
fn unheld_above(climbs: &mut Climbs, holders: &[Holder; PROCESS_SLOTS], last: Pid) -> Option<Pid>
    ensures pid { pid_found result ≡ first_of count (unheld_in climbs.old holders.now) last.0 }
    ensures some { IfSome result (λ p. 0 < p.0) }
    ensures same { climbs.new ≡ climbs.old }
{
    // A last number past the greatest has none above it, and the sum could wrap.
    if GREATEST_PID <= last.0 {
        return None;
    }
    let mut marks = [false; MARKS];
    for holder in holders {
        if let Some(place) = place_above(climbs, last, holder) {
            marks[place] = true;
        }
    }
    let place = first_unmarked(&marks)?;
    let number = last.0 + 1 + place as u16;
    if GREATEST_PID < number {
        return None;
    }
    Some(Pid(number))
}

// The number by marks: the lowest free one above `last`, or else, where the marks reached to GREATEST_PID, the lowest
// free from RESTART_PID; none where the marks run out. The holders are at the level of n.
pub fn pid_by_marks(
    tree: &Tree,
    holders: &[Holder; PROCESS_SLOTS],
    n: NsSlot,
    last: Pid,
) -> Option<Pid>
    ensures pid { pid_found result ≡ by_marks count (unheld_in (tree.now, n.0) holders.now) last.0 }
    ensures some { IfSome result (λ p. 0 < p.0) }
{
    let mut climbs = Climbs::new(tree, n);
    let above = unheld_above(&mut climbs, holders, last);
    if above.is_some() {
        return above;
    }
    if GREATEST_PID - MARKS as u16 <= last.0 {
        return unheld_above(&mut climbs, holders, Pid(RESTART_PID - 1));
    }
    None // the marks ran out
}

// ---- the number

// The number of a new process in n: the lowest free one above its last, or else the lowest free from RESTART_PID. It is
// searched for by marks, and where these run out one by one.
pub fn next_pid(t: &Table, n: NsSlot) -> Pid
    ensures { result.0 ≡ next_pid (view t.now) n.0 }
{
    let here = t.namespace(n);
    let tree = Tree::of(&t.namespaces);
    let holders = holders(&t.processes, here.level);
    match pid_by_marks(&tree, &holders, n, here.last) {
        Some(found) => found,
        None => one_by_one(t, n),
    }
}
