// The shell of a program that tells of a trace: it reads standard input, or the file that is named,
// and writes to standard output. It only reads, calls and writes.
#![tactic(auto)]

ghost use Rattle.std.specs.Prelude.{◌-◌, ◌≤◌, length, take, drop, true, ◌≡◌, IfSome};
ghost use Rattle.shell.specs.Shell.{Good, Enough, Ready, opened, stopped, after, StopsOr, Filled, Said, Turned};
ghost use Rattle.shell.specs.Reached.{Reached};

mod telling;

pub use crate::telling::{Telling, Turn};
use std::env::{Env, FillError};
use std::fs::Files;
use std::io::{ErrorKind, Read};
use std::{fs, io, str};

// A program while it runs: how far what it tells has come, the part of the buffer that holds what
// was read and not yet taken, whether the input has ended there, whether more of it is wanted, and
// whether the program goes on.
#[derive(Clone, Copy)]
pub struct Shell<T> {
    pub progress: T,
    pub start: usize,
    pub end: usize,
    pub last: bool,
    pub hungry: bool,
    pub going: bool,
}

// Says on standard error what is wrong, under the program's name.
fn warn<T: Telling>(rt: &impl Eprint, what: &str) {
    let _ = eprintln!(rt; "{}: {what}", T::PROGRAM);
}

// Says what failed and why; not that whoever reads the output wants no more of it.
fn fail<T: Telling>(rt: &impl Eprint, what: &str, e: io::Error) {
    if e.kind() == ErrorKind::BrokenPipe {
        return;
    }
    let _ = eprintln!(rt; "{}: {what}: {e}", T::PROGRAM);
}

fn ended<T: Copy>(s: Shell<T>) -> Shell<T>
    ensures { result ≡ stopped s }
{
    Shell { going: false, ..s }
}

// Reads on behind what is left of the input, where more is wanted.
fn fill<T: Telling>(rt: &impl Eprint, from: &mut impl Read, buf: &mut [u8], s: Shell<T>) -> Shell<T>
    requires good { Good T.Telling (length buf.old) s }
    requires going_value { s.going ≡ true }
    ensures stays_good { Good T.Telling (length buf.old) result }
    ensures stops_or { StopsOr s result (Filled buf.old buf.new s result) }
{
    if !s.hungry || s.last {
        return s;
    }
    let kept = s.end - s.start;
    buf.copy_within(s.start..s.end, 0);
    let n = match from.read(&mut buf[kept..]) {
        Ok(n) => n,
        Err(e) => {
            fail::<T>(rt, "cannot read", e);
            return ended(s);
        }
    };
    Shell {
        start: 0,
        end: kept + n,
        last: n == 0,
        hungry: false,
        ..s
    }
}

// Writes the text of the call t, all that is handed over, and goes on to where the call brought f.
fn say<T: Telling>(
    rt: &(impl Print + Eprint),
    text: &[u8],
    buf: &[u8],
    f: Shell<T>,
    t: Turn<T>,
) -> Shell<T>
    requires { Said T.Telling text.now buf.now f t }
    ensures { StopsOr (after T.Telling f t) result (result ≡ after T.Telling f t) }
{
    let still = t.taken == 0 && t.written == 0;
    let z = Shell {
        progress: t.progress,
        start: f.start + t.taken,
        hungry: still,
        going: !t.progress.is_done(),
        ..f
    };
    if let Err(e) = rt.write_all(text) {
        fail::<T>(rt, "cannot write", e);
        return ended(z);
    }
    if still && f.last && z.going {
        warn::<T>(rt, "the input is too long for its bytes to be numbered");
        return ended(z);
    }
    z
}

// One call, whose text stands at the start of out, and is written.
fn turn<T: Telling>(
    rt: &(impl Print + Eprint),
    from: &mut impl Read,
    buf: &mut [u8],
    out: &mut [u8],
    s: Shell<T>,
) -> Shell<T>
    requires { Ready T.Telling (length buf.old) (length out.old) s }
    ensures good { Good T.Telling (length buf.old) result }
    ensures stops_or { StopsOr s result (Turned T.Telling buf.old buf.new out.old out.new s result) }
{
    let f = fill(rt, from, buf, s);
    if !f.going {
        return f;
    }
    let t = f.progress.advance(&buf[f.start..f.end], f.last, out);
    say(rt, &out[..t.written], buf, f, t)
}

// Writes the heading line, all that is handed over, and begins.
fn begin<T: Telling>(rt: &(impl Print + Eprint), text: &[u8]) -> Shell<T>
    requires { text.now ≡ T.heading }
    ensures { StopsOr (opened T.Telling) result (result ≡ opened T.Telling) }
{
    let s = Shell {
        progress: T::begin(),
        start: 0,
        end: 0,
        last: false,
        hungry: true,
        going: true,
    };
    if let Err(e) = rt.write_all(text) {
        fail::<T>(rt, "cannot write", e);
        return ended(s);
    }
    s
}

// What is told of what is read.
fn tell<T: Telling>(
    rt: &(impl Print + Eprint),
    from: &mut impl Read,
    buf: &mut [u8],
    out: &mut [u8],
) -> Shell<T>
    requires { Enough T.Telling (length buf.old) (length out.old) }
    ensures { Reached T.Telling result }
{
    let h = T::heading(out);
    let mut s: Shell<T> = begin(rt, &out[..h]);
    // the number of turns bounds the loop for the proof, and is never reached
    for _ in 0..u64::MAX {
        if !s.going {
            break;
        }
        s = turn(rt, from, buf, out, s);
    }
    s
}

// The file that the argument names; `-` is standard input.
fn named<T: Telling>(
    rt: &(impl Env + Files + Input + Print + Eprint),
    buf: &mut [u8],
    out: &mut [u8],
) -> Option<Shell<T>>
    requires { Enough T.Telling (length buf.old) (length out.old) }
    ensures { IfSome result (λ s. Reached T.Telling s) }
{
    let mut path = [0u8; 4096];
    let Ok(n) = rt.arg(1, &mut path) else {
        warn::<T>(rt, "the file's name: File name too long");
        return None;
    };
    if path[..n] == [b'-'] {
        return Some(tell::<T>(rt, &mut rt.reader(), buf, out));
    }
    let Ok(name) = str::from_utf8(&path[..n]) else {
        warn::<T>(rt, "the file's name: it is not UTF-8");
        return None;
    };
    match fs::open(rt, name) {
        Ok(mut file) => Some(tell::<T>(rt, &mut file, buf, out)),
        Err(e) => {
            if e.kind() != ErrorKind::BrokenPipe {
                let _ = eprintln!(rt; "{name}: {e}");
            }
            None
        }
    }
}

// Whether there is an argument i.
fn has_arg(rt: &impl Env, i: usize) -> bool {
    let mut none = [0u8; 1];
    !matches!(rt.arg(i, &mut none), Err(FillError::NotPresent))
}

// What the program does: it tells of the file that its one argument names, or of standard input, and
// answers how far it came, where it told at all.
pub fn serve<T: Telling>(
    rt: &(impl Env + Files + Input + Print + Eprint),
    buf: &mut [u8],
    out: &mut [u8],
) -> Option<Shell<T>>
    requires { Enough T.Telling (length buf.old) (length out.old) }
    ensures { IfSome result (λ s. Reached T.Telling s) }
{
    if !has_arg(rt, 1) {
        return Some(tell::<T>(rt, &mut rt.reader(), buf, out));
    }
    if has_arg(rt, 2) {
        let _ = eprintln!(rt; "usage: {} [FILE]", T::PROGRAM);
        return None;
    }
    named::<T>(rt, buf, out)
}
