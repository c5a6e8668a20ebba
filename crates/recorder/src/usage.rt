// What the program says of itself.
use crate::faults::{Stopped, tell, write_out};

const SYNOPSIS: &[u8] = b"usage: recorder [FILE]\n\
      \n\
      Runs a script of calls on a table of processes and PID namespaces: FILE, or standard\n\
      input where there is none or it is -. --help and --version print a text instead.\n\
      Errors of input and output are told on standard error; the exit status is always 0.\n\
      \n\
      A line is the caller's slot, from 0 to 255, and a call. The root init is at slot 0, and\n\
      a child takes the lowest free slot.\n";

const CALLS: &[u8] = b"  clone           a child in the namespace for the caller's children\n\
      \x20 clone new       a child that is the init of a new namespace\n\
      \x20 unshare         the caller's next child is the init of a new namespace\n\
      \x20 setns N         its children are born into the namespace of process N\n\
      \x20 getpid          the caller's number in its own namespace\n\
      \x20 getppid         its parent's number there, or 0 if the parent is outside\n\
      \x20 exit S          the caller ends and gives S, an init with its whole subtree\n\
      \x20 wait            removes the ended child with the lowest number\n\
      \x20 kill N S        sends signal S to process N\n\
      \x20 kill -1 S       sends it to all that the caller sees but itself and number 1\n\
      \x20 handle S 1|0    signal S becomes pending from now on, or no more\n\
      \x20 poll            takes the lowest pending signal\n";

const REFUSALS: &[u8] = b"\n\
      Each line gives one line: the answer, ? where it is no call, or a refusal:\n\
      \x20 -1000  the table is not sound (no script brings that about)\n\
      \x20 -1001  the caller's slot is beyond 63, empty, ended or stopped\n\
      \x20   -22  kill: S is not 0 to 31; handle: S is not 1 to 31, or it is 9 or 19;\n\
      \x20        clone new, unshare: the children's namespace is not the caller's own\n\
      \x20   -38  kill: N is 0 or below -1\n\
      \x20    -3  kill, setns: no such process is seen; setns: it has ended;\n\
      \x20        kill -1: nobody is meant\n\
      \x20   -16  exit by the root init\n\
      \x20   -10  wait: no children\n\
      \x20   -28  clone new, unshare: the caller's own namespace is at level 32\n\
      \x20   -12  clone: the children's namespace is dead\n\
      \x20   -11  no room: 64 processes, or 48 namespaces\n";

const VERSION: &[u8] = b"recorder 0.1.0 (Lampfunnel, with W-203 and W-206)\n";

// Of an argument that it does not take.
pub(crate) fn misused(rt: &HostRuntime, what: &[u8]) -> Stopped {
    tell(rt, what);
    tell(rt, b": not understood; see recorder --help\n");
    Stopped
}

fn print(rt: &HostRuntime, text: &[u8]) -> Result<(), Stopped> {
    write_out(rt, &mut rt.stdout(), text)
}

pub(crate) fn print_version(rt: &HostRuntime) -> Result<(), Stopped> {
    print(rt, VERSION)
}

// Each part is printed if the one before could be.
pub(crate) fn print_help(rt: &HostRuntime) -> Result<(), Stopped> {
    print(rt, SYNOPSIS)?;
    print(rt, CALLS)?;
    print(rt, REFUSALS)
}
