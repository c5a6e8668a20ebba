// Arguments of calls, which are whole 32-bit numbers: tests of them, and the crossing to unsigned numbers.
#![tactic(auto, using(table::proofs::Chains::chains))]

ghost use Rattle.std.specs.Prelude.{not, ◌≡◌, ◌%◌, eqb, ltb};
ghost use Rattle.rules.specs.Calls.{within, natural, status, names_group};
ghost use Rattle.table.specs.Limits.{signals, sigkill, sigstop};
ghost use Rattle.table.specs.Tests.{◌or◌};
ghost use Rattle.arguments.specs.Arguments.{names_everyone, byte_values};

// The numbers of signals and of statuses at the width of an argument.
const SIGNALS: i32 = table::SIGNALS as i32;

const SIGKILL: i32 = table::SIGKILL as i32;

const SIGSTOP: i32 = table::SIGSTOP as i32;

const STATUSES: i32 = table::STATUSES as i32;

// How many numbers a byte can hold.
const BYTE_VALUES: u32 = 256;

// The number, or 0 for one below 0: nobody has the number 0, and where a signal is meant one below 0 is refused first.
pub fn natural_of(n: i32) -> u32
    ensures { result ≡ natural n }
{
    u32::try_from(n).unwrap_or(0)
}

// n names one process: it is above 0.
pub fn names_one(n: i32) -> bool
    ensures { result ≡ ltb 0 (natural n) }
{
    0 < n
}

// 0 or below -1
pub fn names_group(n: i32) -> bool
    ensures { result ≡ names_group n }
{
    n == 0 || n < -1
}

// -1
pub fn names_everyone(n: i32) -> bool
    ensures { result ≡ names_everyone n }
{
    n == -1
}

// The remainder of s by 256, from 0 to 255, below 0 too.
pub fn exit_status(s: i32) -> u8
    ensures { result ≡ status s }
{
    s.rem_euclid(STATUSES) as u8
}

// What kill takes for a signal: 0 to 31.
pub fn is_signal(s: i32) -> bool
    ensures { result ≡ within 0 signals s }
{
    0 <= s && s < SIGNALS
}

// What handle refuses: not 1 to 31, or 9 or 19.
pub fn cannot_handle(s: i32) -> bool
    ensures { result ≡ (not (within 1 signals s) or eqb (natural s) sigkill or eqb (natural s) sigstop) }
{
    if s < 1 || SIGNALS <= s {
        return true;
    }
    s == SIGKILL || s == SIGSTOP
}

// The signal itself, once it has passed one of the two tests: then it is below 32 and the remainder changes nothing. Of
// another number, which no call passes on, the low eight bits: so it can't fail, and is no `TryFrom`.
pub fn signal_of(s: i32) -> u8
    ensures { result ≡ natural s % byte_values }
{
    (natural_of(s) % BYTE_VALUES) as u8
}
