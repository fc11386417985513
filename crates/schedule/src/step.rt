// One tick, and a run of ticks into a lent row.
ghost use Rattle.std.specs.Prelude.{◌≡◌, ◌≤◌};
ghost use Rattle.rules.specs.Limits.{nobody, clock_end};
ghost use Rattle.rules.specs.Step.{stepped};
ghost use Rattle.rules.specs.Run.{ran, passed};
ghost use Rattle.rules.specs.Calls.{Given};
ghost use Rattle.rules.specs.Refusals.{answered};
ghost use Rattle.promises.specs.Taken.{entry_to, outcome_to};
ghost use Rattle.schedule.specs.Until.{until};

use crate::passes::{charge, fit, idle_tick, leave};
use quantities::{Moment, Outcome, Refusal, State, Stepped, Table};

// One tick before the clock's end; who had it stands in the state.
fn tick(s: &mut State)
    requires { Given s.old × (s.old.clock.0 ≡ clock_end → ⊥) }
    ensures { s.new ≡ (stepped s.old).state }
{
    let free = leave(s);
    let it = fit(s, &free);
    match it.chosen {
        Some(c) => charge(s, c.thread, &free, &it.best),
        None => idle_tick(s),
    }
}

// The answer of a tick that `had` had.
fn outcome_to(had: usize) -> Outcome
    requires { had ≤ nobody }
    ensures { result ≡ outcome_to had }
{
    if had == Table::NOBODY {
        return Outcome::Idle;
    }
    Outcome::Grant(had as u16)
}

// The entry of a tick that `had` had.
fn entry_to(had: usize) -> u16
    requires { had ≤ nobody }
    ensures { result ≡ entry_to had }
{
    if had == Table::NOBODY {
        return Table::IDLE;
    }
    had as u16
}

// One tick: who has it, and the state after it; 13 at the clock's end.
pub fn step(mut s: State) -> Stepped
    requires { Given s }
    ensures { result ≡ stepped s }
{
    if s.clock == Table::CLOCK_END {
        return Stepped {
            outcome: Outcome::Refused(Refusal::BeyondTheEnd as u8),
            state: s,
        };
    }
    tick(&mut s);
    Stepped {
        outcome: outcome_to(s.had),
        state: s,
    }
}

// One tick of a state that is lent, in which who had it then stands; at the clock's end nothing changes.
pub fn lead_on(s: &mut State)
    requires { Given s.old }
    ensures { s.new ≡ (stepped s.old).state }
{
    if s.clock != Table::CLOCK_END {
        tick(s);
    }
}

// The state after one tick, in which who had it stands; at the clock's end the state itself.
pub fn next(mut s: State) -> State
    requires { Given s }
    ensures { result ≡ (stepped s).state }
{
    lead_on(&mut s);
    s
}

// How many ticks lie before the moment `to`; 12, 13.
#[tactic(auto, unfolding(crate::specs::Until::until))]
fn ticks_until(now: Moment, to: Moment) -> Result<usize, Refusal>
    ensures { result ≡ until now.0 to.0 }
{
    if to < now {
        return Err(Refusal::BeforeTheClock);
    }
    if to > Table::CLOCK_END {
        return Err(Refusal::BeyondTheEnd);
    }
    Ok((to.0 - now.0) as usize)
}

// The ticks up to the moment `to`, one entry of the row for each; 12, 13, 17.
pub fn run(mut s: State, to: Moment, row: &mut [u16]) -> Result<State, Refusal>
    requires { Given s }
    ensures { (answered s result ≡ (ran s to.0 row.old).result) × (row.new ≡ (ran s to.0 row.old).row) }
{
    let n = ticks_until(s.clock, to)?; // whatever the row
    if row.len() < n {
        return Err(Refusal::RowTooShort);
    }
    for i in 0..n {
        tick(&mut s);
        row[i] = entry_to(s.had);
    }
    Ok(s)
}

// The ticks up to the moment `to`, with no row for them; 12, 13.
pub fn pass(mut s: State, to: Moment) -> Result<State, Refusal>
    requires { Given s }
    ensures { answered s result ≡ passed s to.0 }
{
    for _ in 0..ticks_until(s.clock, to)? {
        tick(&mut s); // and no entry
    }
    Ok(s)
}
