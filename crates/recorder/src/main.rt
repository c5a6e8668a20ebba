// Runs a script of calls: a line of the input is a call, and a line of standard output its answer.
#![tactic(auto)]

mod faults;
mod run;
mod usage;

use faults::{Stopped, fail};
use run::run;
use std::env::{Env, FillError};
use std::fs::File;
use std::io::{Error, ErrorKind};
use usage::{misused, print_help, print_version};

// So many bytes of an argument are taken, and the name of the program stands before them.
const TEXT: usize = 65536;

const NAME: &[u8; 10] = b"recorder: ";

// What the system says of a name that is too long.
const ENAMETOOLONG: i32 = 36;

// Runs the script in a file. `what` is what an error is told of.
fn run_file(rt: &HostRuntime, name: &[u8], what: &[u8]) -> Result<(), Stopped> {
    let mut file = open(rt, name).map_err(|e| fail(rt, what, &e))?;
    run(rt, &mut file, what, &mut rt.stdout())
}

// std takes names that are text.
fn open(rt: &HostRuntime, name: &[u8]) -> Result<File, Error> {
    match str::from_utf8(name) {
        Ok(path) => File::open(rt, path),
        Err(_) => Err(Error::from(ErrorKind::InvalidFilename)),
    }
}

fn run_input(rt: &HostRuntime) -> Result<(), Stopped> {
    run(
        rt,
        &mut rt.stdin(),
        b"recorder: standard input",
        &mut rt.stdout(),
    )
}

// Does what the one argument asks for. `what` is the word behind the program's name.
fn obey(rt: &HostRuntime, word: &[u8], what: &[u8]) -> Result<(), Stopped> {
    match word {
        b"--help" => print_help(rt),
        b"--version" => print_version(rt),
        b"-" => run_input(rt),
        [b'-', ..] => Err(misused(rt, what)),
        _ => run_file(rt, word, what),
    }
}

// The argument is read behind the program's name, so that an error can be told of both at once. The buffer is fixed,
// since std's list of arguments asks for memory and takes none that is not text.
fn take_argument(rt: &HostRuntime) -> Result<(), Stopped> {
    let mut text = [0u8; TEXT];
    let (name, room) = text.split_at_mut(NAME.len());
    name.copy_from_slice(NAME);
    match rt.arg(1, room) {
        Ok(n) => {
            let what = &text[..NAME.len() + n];
            obey(rt, &what[NAME.len()..], what)
        }
        Err(FillError::NotPresent) => run_input(rt),
        Err(FillError::TooLong) => {
            let error = Error::from_raw_os_error(ENAMETOOLONG);
            Err(fail(rt, b"recorder: the argument", &error))
        }
    }
}

// Whether there is an argument at a place, whatever it is.
fn has_argument(rt: &HostRuntime, place: usize) -> bool {
    !matches!(rt.arg(place, &mut []), Err(FillError::NotPresent))
}

fn start(rt: &HostRuntime) -> Result<(), Stopped> {
    if has_argument(rt, 2) {
        return Err(misused(rt, b"recorder: more than one argument"));
    }
    take_argument(rt)
}

// What stopped it has been told, and the exit status is 0 all the same.
fn main(rt: HostRuntime) {
    let _ = start(&rt);
}
