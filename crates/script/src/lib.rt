// The script: a line of text to a call, and an answer to a line of text.
#![tactic(auto)]

ghost use Rattle.std.specs.Prelude.{◌≡◌, ◌+◌, ◌<◌, ◌≤◌, [], ◌∷◌, ◌++◌, length, MatchOption, position, ◌==◌};
ghost use Rattle.rules.specs.Answers.{refusal_number, number_of, end_of};
ghost use Rattle.script.specs.Sizes.{answer_bytes, most_digits};
ghost use Rattle.script.specs.Outputs.{end_text, removed_text, answer_line, bad_line, Written, Copied};
ghost use Rattle.script.specs.Texts.{minus_sign, decimal, number as number_text};
ghost use Rattle.script.specs.Reading.{word_length, first_word, later_words, same as same_text, natural_from, read_natural, from_zero as from_zero_to, below_zero as below_zero_to, read_number, plain_call, with_number, call_with, kill_call, handle_call, call_with_two, read_call, after_slot, read_line};

use arrayvec::ArrayString;
use itoa::Buffer;
use table::{Answer, Call, End, ProcSlot, Refusal};

// ---- sizes, each named once

// The longest line that is read, without its line feed.
pub const LINE_BYTES: usize = 64;

// Room for an answer and its line feed.
pub const ANSWER_BYTES: usize = 32;

// A number has at most so many digits: enough for 32 bits.
const MOST_DIGITS: usize = 10;

// An argument has 32 bits with its sign: it is below this number, and not below its negative.
const PAST_32_BIT: u64 = 2147483648;

// ---- what is read

// What a line asks for: the call of a slot.
#[derive(Clone, Copy)]
pub struct Asked {
    pub slot: ProcSlot,
    pub call: Call,
}

// ---- words

// Where a byte first stands in a text, if it does.
pub fn first_place(s: &[u8], byte: u8) -> Option<usize>
    ensures { result ≡ position (λ b. b == byte) s.now }
{
    s.iter().position(|b| *b == byte)
}

// The bytes before the first space, and those after it. None: there is no space.
fn split_word(s: &[u8]) -> Option<(&[u8], &[u8])>
    ensures { MatchOption result (length s.now ≤ word_length s.now) (λ parts. (word_length s.now < length s.now) × (parts.0.now ≡ first_word s.now) × (parts.1.now ≡ later_words s.now)) }
{
    let end = first_place(s, b' ')?;
    Some((&s[..end], &s[end + 1..]))
}

// Whether two texts are the same. (`match` has taken its place in this crate; it stays for others.)
#[tactic(auto, using(crate::proofs::Scans::same_is))]
pub fn same(a: &[u8], b: &[u8]) -> bool
    ensures { result ≡ same_text a.now b.now }
{
    a == b
}

// ---- numbers

// The value of few enough digits that it fits.
fn digits_value(s: &[u8]) -> Option<u64>
    requires { length s.now ≤ most_digits }
    ensures { result ≡ natural_from 0 s.now }
{
    let mut value: u64 = 0;
    for b in s {
        if !b.is_ascii_digit() {
            return None;
        }
        value = value * 10 + (*b - b'0') as u64;
    }
    Some(value)
}

// One to ten digits and no needless zero. `str::parse` would take `+5` and `007` too.
fn read_natural(s: &[u8]) -> Option<u64>
    ensures { result ≡ read_natural s.now }
{
    if s.is_empty() || s.len() > MOST_DIGITS {
        return None;
    }
    if s[0] == b'0' {
        return (s.len() == 1).then_some(0);
    }
    digits_value(s)
}

fn from_zero(natural: Option<u64>) -> Option<i32>
    ensures { result ≡ from_zero_to natural }
{
    i32::try_from(natural?).ok()
}

// (The cast is exact, by the test before it: `TryFrom` would make that test a second time.)
fn below_zero(natural: Option<u64>) -> Option<i32>
    ensures { result ≡ below_zero_to natural }
{
    let n = natural?;
    if n == 0 || n > PAST_32_BIT {
        return None;
    }
    Some((0 - n as i64) as i32)
}

fn read_number(s: &[u8]) -> Option<i32>
    ensures { result ≡ read_number s.now }
{
    match s {
        [] => None,
        [b'-', digits @ ..] => below_zero(read_natural(digits)),
        _ => from_zero(read_natural(s)),
    }
}

// ---- calls

// A call of one word.
#[tactic(auto, using(crate::proofs::Arms::arms), unfolding(crate::specs::Reading::plain_call, crate::specs::Reading::own_call))]
fn plain_call(word: &[u8]) -> Option<Call>
    ensures { result ≡ plain_call word.now }
{
    match word {
        b"clone" => Some(Call::Clone),
        b"unshare" => Some(Call::Unshare),
        b"wait" => Some(Call::Wait),
        b"getpid" => Some(Call::Getpid),
        b"getppid" => Some(Call::Getppid),
        b"poll" => Some(Call::Poll),
        _ => None,
    }
}

#[tactic(auto, using(crate::proofs::Arms::arms, crate::proofs::Calls::number_laws))]
fn with_number(word: &[u8], number: Option<i32>) -> Option<Call>
    ensures { result ≡ with_number word.now number }
{
    match word {
        b"setns" => Some(Call::Setns(number?)),
        b"exit" => Some(Call::Exit(number?)),
        _ => None,
    }
}

// A call of a word and an argument.
#[tactic(auto, using(crate::proofs::Arms::arms, crate::proofs::Calls::with_read), unfolding(crate::specs::Reading::call_with))]
fn call_with(word: &[u8], argument: &[u8]) -> Option<Call>
    ensures { result ≡ call_with word.now argument.now }
{
    match word {
        b"clone" => match argument {
            b"new" => Some(Call::CloneNew),
            _ => None,
        },
        _ => with_number(word, read_number(argument)),
    }
}

fn kill_call(target: Option<i32>, signal: Option<i32>) -> Option<Call>
    ensures { result ≡ kill_call target signal }
{
    Some(Call::Kill(target?, signal?))
}

#[tactic(auto, using(crate::proofs::Arms::arms, crate::proofs::Calls::handle_laws))]
fn handle_call(signal: Option<i32>, switch: &[u8]) -> Option<Call>
    ensures { result ≡ handle_call signal switch.now }
{
    match switch {
        b"1" => Some(Call::Handle(signal?, true)),
        b"0" => Some(Call::Handle(signal?, false)),
        _ => None,
    }
}

// A call of a word and two arguments.
#[tactic(auto, using(crate::proofs::Arms::arms, crate::proofs::Calls::kill_read, crate::proofs::Calls::handle_read), unfolding(crate::specs::Reading::call_with_two))]
fn call_with_two(word: &[u8], first: &[u8], second: &[u8]) -> Option<Call>
    ensures { result ≡ call_with_two word.now first.now second.now }
{
    match word {
        b"kill" => kill_call(read_number(first), read_number(second)),
        b"handle" => handle_call(read_number(first), second),
        _ => None,
    }
}

// A call and its arguments: a word, and at most two more.
fn read_call(s: &[u8]) -> Option<Call>
    ensures { result ≡ read_call s.now }
{
    let Some((word, rest)) = split_word(s) else {
        return plain_call(s);
    };
    let Some((first, second)) = split_word(rest) else {
        return call_with(word, rest);
    };
    call_with_two(word, first, second)
}

// ---- lines

fn after_slot(slot: Option<u64>, rest: &[u8]) -> Option<Asked>
    ensures { result ≡ after_slot slot rest.now }
{
    let slot = ProcSlot(u8::try_from(slot?).ok()?);
    let call = read_call(rest)?;
    Some(Asked { slot, call })
}

// A line of a script without its line feed. None: it asks for nothing.
pub fn parse(line: &[u8]) -> Option<Asked>
    ensures { result ≡ read_line line.now }
{
    if line.len() > LINE_BYTES {
        return None;
    }
    let (slot, rest) = split_word(line)?;
    after_slot(read_natural(slot), rest)
}

// ---- what is written

// A line of the output.
pub type Text = ArrayString<ANSWER_BYTES>;

// By `itoa`, whose clause names the bytes: that a `write!` has room, and so succeeds, no clause says.
fn push_decimal(text: &mut Text, n: u32)
    requires { length text.old.bytes + length (decimal n) ≤ answer_bytes }
    ensures { text.new.bytes ≡ text.old.bytes ++ decimal n }
{
    let mut buffer = Buffer::new();
    text.push_str(buffer.format(n));
}

fn push_end(text: &mut Text, how: End)
    requires { length text.old.bytes ≤ most_digits }
    ensures { text.new.bytes ≡ text.old.bytes ++ end_text how }
{
    match how {
        End::Exited(s) => {
            text.push_str(" gave ");
            push_decimal(text, s as u32);
        }
        End::Signaled(s) => {
            text.push_str(" signal ");
            push_decimal(text, s as u32);
        }
    }
}

// How far below 0 the number of a refusal is. `requests` gives a host the number itself; here the sign is text, so that
// one function for both would be no plainer.
#[tactic(auto, unfolding(crate::specs::Texts::number, rules::specs::Answers::refusal_number))]
fn refusal_size(e: Refusal) -> u32
    ensures { number_text (refusal_number e) ≡ minus_sign ∷ decimal result }
{
    match e {
        Refusal::Unsound => 1000,
        Refusal::NotRunning => 1001,
        Refusal::Einval => 22,
        Refusal::Enosys => 38,
        Refusal::Esrch => 3,
        Refusal::Ebusy => 16,
        Refusal::Echild => 10,
        Refusal::Enospc => 28,
        Refusal::Enomem => 12,
        Refusal::Eagain => 11,
    }
}

// An answer without its line feed.
fn push_answer(text: &mut Text, answer: Answer)
    requires { text.old.bytes ≡ [] }
    ensures { text.new.bytes ≡ number_text (number_of answer) ++ removed_text (end_of answer) }
{
    match answer {
        Answer::Number(n) => push_decimal(text, n as u32),
        Answer::Reaped(pid, how) => {
            push_decimal(text, pid.0 as u32);
            push_end(text, how);
        }
        Answer::Refused(e) => {
            text.push_str("-");
            push_decimal(text, refusal_size(e));
        }
    }
}

// The output line of an answer.
pub fn answer_text(answer: Answer) -> Text
    ensures { Written result (answer_line answer) }
{
    let mut text = Text::new();
    push_answer(&mut text, answer);
    text.push_str("\n");
    text
}

// The output line of any line that is no call.
pub fn bad_text() -> Text
    ensures { Written result bad_line }
{
    let mut text = Text::new();
    text.push_str("?\n");
    text
}

// Copies a text into a lent buffer from a place on, and gives the place after it. (The buffer is a host's, so it is no
// `Vec` that knows its length.)
pub fn put(text: &[u8], out: &mut [u8], at: usize) -> usize
    requires { at + length text.now ≤ length out.old }
    ensures { Copied text.now at out.old out.new result }
{
    let next = at + text.len();
    out[at..next].copy_from_slice(text);
    next
}
