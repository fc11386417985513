// Runs, 12, 13 and 17. Two threads of equal share and deadline have the ticks in turn.
ghost use Rattle.rules.specs.Calls.{Given};

use crate::calls::{arrival, begun, passing, run_into};
use quantities::State;

fn both(rt: &impl Print) -> State
    ensures { Given result }
{
    arrival(rt, arrival(rt, begun(rt, 2), 0), 1)
}

// A row of exactly the run, one entry shorter, and longer.
fn lengths(rt: &impl Print) {
    let mut exact = [7u16; 3];
    let mut short = [7u16; 2];
    let mut long = [7u16; 5];
    let s = both(rt);
    run_into(rt, s, 3, &mut exact);
    run_into(rt, s, 3, &mut short);
    run_into(rt, s, 3, &mut long);
}

// Runs to the present, and idle ticks.
fn none(rt: &impl Print) {
    let mut two = [7u16; 2];
    let mut same = [7u16; 2];
    let s = run_into(rt, begun(rt, 1), 0, &mut same);
    let s = run_into(rt, s, 2, &mut two);
    run_into(rt, s, 2, &mut same);
}

// 12 and 13 come before 17.
fn moments(rt: &impl Print) {
    let mut one = [7u16; 1];
    let s = passing(rt, both(rt), 3);
    let s = run_into(rt, s, 2, &mut one);
    let s = run_into(rt, s, 2147483647, &mut one);
    let s = run_into(rt, s, 2147483648, &mut one);
    let s = passing(rt, s, 2);
    let s = passing(rt, s, 3);
    passing(rt, s, 2147483648);
}

pub fn run(rt: &impl Print) {
    lengths(rt);
    none(rt);
    moments(rt);
}
