// The jobs of a thread, neither completed nor dropped: 65,535, and the next refused 11.
ghost use Rattle.rules.specs.Calls.{Given};

use crate::calls::{arrival, begun, completion, dropping, tick};
use events::arrive;
use quantities::State;

// So many arrivals of thread 0, without a line for each.
fn arrivals(rt: &impl Print, mut s: State, n: u32) -> State
    requires { Given s }
    ensures { Given result }
{
    let _ = println!(rt; "arrivals of thread 0: {n}");
    for _ in 0..n {
        s = arrive(s, 0).unwrap_or(s);
    }
    s
}

pub fn run(rt: &impl Print) {
    let s = arrivals(rt, begun(rt, 1), 65534);
    let s = arrival(rt, s, 0);
    let s = arrival(rt, s, 0);
    // a completed job counts no longer; a refused arrival does not close the moment
    let s = tick(rt, s);
    let s = arrival(rt, s, 0);
    let s = completion(rt, s, 0);
    let s = arrival(rt, s, 0);
    let s = arrival(rt, s, 0);
    // nor do dropped ones
    let s = dropping(rt, s, 0);
    let s = arrivals(rt, s, 65533);
    let s = arrival(rt, s, 0);
    arrival(rt, s, 0);
}
