// The thin entry: the table is lent, and what the by-value step makes of it is stored in its place.
#![tactic(auto)]

ghost use Rattle.std.proofs.Math.Bool.{So};
ghost use Rattle.std.specs.Prelude.{true, ◌≡◌};
ghost use Rattle.rules.specs.Sound.{sound};
ghost use Rattle.entry.specs.Applied.{Applied};

use table::{Call, ProcSlot, Reply, Table};

// One call on the table, in place. The host is told the answer, and a child's slot beside it. A table that is known to
// be sound is not checked.
pub fn apply_known(t: &mut Table, known: bool, caller: ProcSlot, call: Call) -> Reply
    ensures { (known ≡ true → So (sound t.old)) → Applied t.old caller call result t.new }
{
    let o = calls::step_known(*t, known, caller, call);
    *t = o.table;
    o.reply
}

// The same, with nothing known of the table: it is checked each time.
pub fn apply(t: &mut Table, caller: ProcSlot, call: Call) -> Reply
    ensures { Applied t.old caller call result t.new }
{
    apply_known(t, false, caller, call)
}
