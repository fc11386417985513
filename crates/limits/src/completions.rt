// Thread numbers, 8; completions, 9 and 10.
use crate::calls::{arrival, begun, completion, dropping, tick};

// The last thread of the largest table, and the number after it.
fn numbers(rt: &impl Print) {
    let s = begun(rt, 64);
    let s = arrival(rt, s, 63);
    let s = arrival(rt, s, 64);
    let s = dropping(rt, s, 63);
    let s = dropping(rt, s, 64);
    let s = tick(rt, s);
    let s = completion(rt, s, 64);
    let s = completion(rt, s, 63);
    arrival(rt, s, 65535);
}

// A completion at moment 0 is refused 9; after an arrival it is refused 10 whoever had the tick,
// but for a number not in the table.
fn early(rt: &impl Print) {
    let s = begun(rt, 2);
    let s = completion(rt, s, 0);
    let s = arrival(rt, s, 0);
    let s = completion(rt, s, 0);
    completion(rt, s, 2);
}

// Threads 0 and 1 have the ticks 0 and 1. Only who had the tick completes, once, and not after an
// arrival; a refused arrival and a drop are no obstacle.
fn after_ticks(rt: &impl Print) {
    let s = arrival(rt, arrival(rt, begun(rt, 2), 0), 1);
    let s = tick(rt, s);
    let s = completion(rt, s, 1);
    let s = completion(rt, s, 0);
    let s = completion(rt, s, 0);
    let s = arrival(rt, s, 0);
    let s = completion(rt, s, 0);
    let s = tick(rt, s);
    let s = completion(rt, s, 0);
    let s = arrival(rt, s, 2);
    let s = dropping(rt, s, 1);
    completion(rt, s, 1);
}

// Nobody completes after an idle tick.
fn idle(rt: &impl Print) {
    let s = tick(rt, begun(rt, 1));
    completion(rt, s, 0);
}

pub fn run(rt: &impl Print) {
    numbers(rt);
    early(rt);
    after_ticks(rt);
    idle(rt);
}
