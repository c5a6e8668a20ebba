// What a host links: a whole script, or one call at a time on a table that the host holds.
#![tactic(auto)]

ghost use Rattle.std.specs.Prelude.{◌≡◌, length};
ghost use Rattle.lines.specs.Splitting.{lines};
ghost use Rattle.lampfunnel.specs.Run.{told, filled};
ghost use Rattle.lampfunnel.specs.Held.{Called, next_number};
ghost use Rattle.mirror.specs.Mirror.{mirror_of, table_from};
ghost use Rattle.rules.specs.Sound.{sound};
ghost use Rattle.table.specs.Fresh.{fresh as fresh_table};

use mirror::{Mirror, mirror_of, table_from};
use numbers::next_pid;
use requests::{Request, Told};
use script::ANSWER_BYTES;
use session::{feed, finish, start};
use sound::is_sound;
use table::{NAMESPACE_SLOTS, NsSlot, fresh};
use turns::turn;

// ---- a script

// Tells that the buffer is too short: C reads a number, and no Option. No buffer is so long, so it is no count of
// answers.
const SHORT: usize = 18446744073709551615;

// How many lines a script has. A line is counted where it begins, since its line feed may be missing.
fn line_count(script: &[u8]) -> usize
    ensures { result ≡ length (lines script.now) }
{
    let mut count: usize = 0;
    let mut inside = false;
    for b in script {
        if !inside {
            count += 1;
        }
        inside = *b != b'\n';
    }
    count
}

// Runs a whole script from the fresh table and writes its answers to the start of `out`. Tells how many bytes they are,
// or SHORT where `out` has less room than the lines may need; then it is as before.
#[unsafe(no_mangle)]
pub extern "C" fn lampfunnel_run(script: &[u8], out: &mut [u8]) -> usize
    ensures { (result ≡ told script.now (length out.old)) × (out.new ≡ filled script.now out.old) }
{
    if line_count(script) > out.len() / ANSWER_BYTES {
        return SHORT;
    }
    let fed = feed(start(), script, out);
    let used = fed.used;
    let line = fed.session.line;
    if line.len == 0 {
        return used;
    }
    used + finish(fed.session, &mut out[used..])
}

// ---- a table that the host holds

// The fresh table: the root init alone.
#[unsafe(no_mangle)]
pub extern "C" fn lampfunnel_fresh() -> Mirror
    ensures { result ≡ mirror_of fresh_table }
{
    mirror_of(fresh())
}

// Whether the table is sound. Bytes that no writer makes are not.
#[unsafe(no_mangle)]
pub extern "C" fn lampfunnel_sound(m: Mirror) -> bool
    ensures { result ≡ sound (table_from m) }
{
    is_sound(table_from(m))
}

// The number that the namespace at a slot would give next; 0 where the slot is past the table's end, since C reads a
// number.
#[unsafe(no_mangle)]
pub extern "C" fn lampfunnel_next_pid(m: Mirror, namespace: u32) -> u16
    ensures { result ≡ next_number m namespace }
{
    if namespace >= NAMESPACE_SLOTS as u32 {
        return 0;
    }
    next_pid(&table_from(m), NsSlot(namespace as u8)).0
}

// One call, in place: what the host holds is lent, and holds what the call leaves.
#[unsafe(no_mangle)]
pub extern "C" fn lampfunnel_call(m: &mut Mirror, caller: u32, request: Request) -> Told
    ensures { Called m.old caller request result m.new }
{
    let o = turn(*m, caller, request);
    *m = o.mirror;
    o.told
}
