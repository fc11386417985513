// The clock's end.
ghost use Rattle.std.specs.Prelude.{◌≤◌, ◌≡◌};
ghost use Rattle.rules.specs.Limits.{clock_end};
ghost use Rattle.rules.specs.Calls.{Given};

use crate::admission::{alike, row_of, schedule_of};
use crate::calls::{arrival, completion, passing, run_into, tick};
use crate::say::clock;
use quantities::{Moment, State};
use schedule::step;

// The schedule of one thread at the moment t, where no job has arrived. Stepping there takes
// minutes; that calls give it is proved.
fn late(t: u32) -> State
    requires { t ≤ clock_end }
    ensures { Given result × (result.clock.0 ≡ t) }
{
    State {
        clock: Moment(t),
        ..schedule_of(alike(1, 1, row_of(0, 1, 1)))
    }
}

// A tick without an answer: at the clock's end nothing changes.
fn next(rt: &impl Print, s: State) -> State
    requires { Given s }
    ensures { Given result }
{
    let z = step::next(s);
    let _ = print!(rt; "next after {}", s.clock.0);
    clock(rt, z.clock);
    z
}

fn steps(rt: &impl Print) {
    let s = tick(rt, late(2147483646));
    tick(rt, s);
    let s = next(rt, late(2147483646));
    next(rt, s);
}

// Events are taken at the last moment too.
fn events(rt: &impl Print) {
    let s = arrival(rt, late(2147483646), 0);
    let s = tick(rt, s);
    let s = completion(rt, s, 0);
    let s = arrival(rt, s, 0);
    tick(rt, s);
}

fn runs(rt: &impl Print) {
    let mut one = [7u16; 1];
    let mut same = [7u16; 1];
    let s = run_into(rt, late(2147483646), 2147483648, &mut one);
    let s = run_into(rt, s, 2147483647, &mut one);
    let s = run_into(rt, s, 2147483647, &mut same);
    run_into(rt, s, 2147483646, &mut same);
    let s = passing(rt, late(2147483646), 2147483648);
    let s = passing(rt, s, 2147483647);
    passing(rt, s, 4294967295);
}

pub fn run(rt: &impl Print) {
    steps(rt);
    events(rt);
    runs(rt);
}
