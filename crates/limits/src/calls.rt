// One call on a given schedule, one line. What is refused leaves the schedule as it was.
ghost use Rattle.std.specs.Prelude.{Result};
ghost use Rattle.rules.specs.Calls.{Given};
ghost use Rattle.rules.specs.Refusals.{Refusal, answered};

use crate::admission::{alike, row_of, schedule_of};
use crate::say;
use events::{arrive, complete, drop_waiting};
use quantities::{Moment, Refusal, State};
use schedule::step;

// So many threads of share 1 that fill the processor.
pub fn begun(rt: &impl Print, threads: u16) -> State
    ensures { Given result }
{
    let _ = println!(rt; "threads {threads}");
    schedule_of(alike(threads, threads, row_of(0, 1, threads as u32)))
}

// How many jobs the thread i has.
fn jobs(s: &State, i: u16) -> u32 {
    s.threads.get(i as usize).map_or(0, |t| t.jobs)
}

// An event of the thread i, and how many jobs it has then.
fn event<F: Fn(State, u16) -> Result<State, Refusal>>(
    rt: &impl Print,
    what: &str,
    f: F,
    s: State,
    i: u16,
) -> State
    requires may_be_called { F.pre f s i }
    requires given { (r : Result State Refusal) → F.post f s i r → Given (answered s r).state }
    ensures { Given result }
{
    let r = f(s, i);
    let z = r.unwrap_or(s);
    let _ = print!(rt; "at {}, {what} of thread {i}", s.clock.0);
    say::answer(rt, "accepted", &r);
    let _ = println!(rt; ", jobs {}", jobs(&z, i));
    z
}

pub fn arrival(rt: &impl Print, s: State, i: u16) -> State
    requires { Given s }
    ensures { Given result }
{
    event(rt, "arrival", arrive, s, i)
}

pub fn completion(rt: &impl Print, s: State, i: u16) -> State
    requires { Given s }
    ensures { Given result }
{
    event(rt, "completion", complete, s, i)
}

pub fn dropping(rt: &impl Print, s: State, i: u16) -> State
    requires { Given s }
    ensures { Given result }
{
    event(rt, "drop", drop_waiting, s, i)
}

pub fn tick(rt: &impl Print, s: State) -> State
    requires { Given s }
    ensures { Given result }
{
    let r = step::step(s);
    say::step(rt, s.clock, r.outcome);
    say::clock(rt, r.state.clock);
    r.state
}

// A run into a lent row, with all of the row after it.
pub fn run_into(rt: &impl Print, s: State, to: u32, row: &mut [u16]) -> State
    requires { Given s }
    ensures { Given result }
{
    let r = step::run(s, Moment(to), row);
    let z = r.unwrap_or(s);
    say::run(rt, s.clock, "run to", to, &r);
    say::entries(rt, row);
    say::clock(rt, z.clock);
    z
}

// A run for which no row is lent.
pub fn passing(rt: &impl Print, s: State, to: u32) -> State
    requires { Given s }
    ensures { Given result }
{
    let r = step::pass(s, Moment(to));
    let z = r.unwrap_or(s);
    say::run(rt, s.clock, "run without a row to", to, &r);
    say::clock(rt, z.clock);
    z
}
