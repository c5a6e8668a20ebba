// Signals by number: sets of them, and what an unhandled one does. A signal is a plain byte, as in the record of an
// end, and each function answers for any: so a clause, and no type, says where one is below 32.
#![tactic(auto, using(table::proofs::Chains::chains))]

ghost use Rattle.std.specs.Prelude.{◌≡◌, ◌<◌, ltb, IfSome, unwrap_or};
ghost use Rattle.rules.specs.Delivery.{default_action};
ghost use Rattle.table.specs.Limits.{signals};
ghost use Rattle.table.specs.SignalSets.{has, with_signal, without_signal, lowest_signal};
ghost use Rattle.table.specs.Tests.{when◌then◌else◌};

use table::{Action, SIGNALS};

// ---- sets of signals: bit s stands for signal s

// A set of 32 bits has no signal from 32 on.
pub fn has_signal(set: u32, s: u8) -> bool
    ensures { result ≡ has set s }
{
    s < SIGNALS && (set >> s) % 2 == 1
}

// A signal from 32 on has no bit to set.
pub fn with_signal(set: u32, s: u8) -> u32
    ensures { result ≡ (when ltb s signals then with_signal set s else set) }
{
    if s < SIGNALS {
        return set | 1u32 << s;
    }
    set
}

// A signal from 32 on is in no set, so there is none to take out.
pub fn without_signal(set: u32, s: u8) -> u32
    ensures { result ≡ without_signal set s }
{
    if s < SIGNALS {
        return set & !(1u32 << s);
    }
    set
}

// The lowest signal of a set, if it has one.
pub fn lowest_signal(set: u32) -> Option<u8>
    ensures signal { unwrap_or result signals ≡ lowest_signal set }
    ensures within { IfSome result (λ s. s < signals) }
{
    let zeros = set.trailing_zeros() as u8;
    if zeros < SIGNALS {
        return Some(zeros);
    }
    None
}

// ---- defaults

// What an unhandled signal does: data, by number, with names from signal(7), x86.
const DEFAULTS: [Action; SIGNALS as usize] = [
    Action::Finish, // 0 no signal
    Action::Finish, // 1 HUP
    Action::Finish, // 2 INT
    Action::Finish, // 3 QUIT
    Action::Finish, // 4 ILL
    Action::Finish, // 5 TRAP
    Action::Finish, // 6 ABRT
    Action::Finish, // 7 BUS
    Action::Finish, // 8 FPE
    Action::Finish, // 9 KILL
    Action::Finish, // 10 USR1
    Action::Finish, // 11 SEGV
    Action::Finish, // 12 USR2
    Action::Finish, // 13 PIPE
    Action::Finish, // 14 ALRM
    Action::Finish, // 15 TERM
    Action::Finish, // 16 STKFLT
    Action::Nothing, // 17 CHLD
    Action::Resume, // 18 CONT
    Action::Stop, // 19 STOP
    Action::Stop, // 20 TSTP
    Action::Stop, // 21 TTIN
    Action::Stop, // 22 TTOU
    Action::Nothing, // 23 URG
    Action::Finish, // 24 XCPU
    Action::Finish, // 25 XFSZ
    Action::Finish, // 26 VTALRM
    Action::Finish, // 27 PROF
    Action::Nothing, // 28 WINCH
    Action::Finish, // 29 IO
    Action::Finish, // 30 PWR
    Action::Finish, // 31 SYS
];

// Document 01 names no default for 0 or from 32 on, and no call asks for one: the definition's is given there too.
pub fn default_action(s: u8) -> Action
    ensures { result ≡ default_action s }
{
    if s < SIGNALS {
        return DEFAULTS[s as usize];
    }
    Action::Finish
}
