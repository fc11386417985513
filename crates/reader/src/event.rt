// Events: what is refused before any tick is run, the ticks before the event's moment, and the event at it.
ghost use Rattle.std.specs.Prelude.{◌≡◌};
ghost use Rattle.rules.specs.Table.{first};
ghost use Rattle.rules.specs.Calls.{Given};
ghost use Rattle.rules.specs.Reading.{at_events, moment_answer, thread_answer, before_ticks, at_its_moment};
ghost use Rattle.rules.specs.Input.{GivenReading};
ghost use Rattle.rules.specs.Refusals.{answer_of, answered, read_from};
ghost use Rattle.reader.specs.Parts.{moment_of, event_in};

use events::{arrive, complete, drop_waiting};
use quantities::{Moment, Reading, Record, Refusal, State, Table};
use schedule::step::pass;

// All rows of a head have come.
pub fn all_rows(r: &Reading) -> bool
    ensures { result ≡ at_events r.now }
{
    r.table.threads != 0 && r.rows >= r.table.threads as usize
}

// What is refused of a moment; 13, 12.
fn moment_answer(s: &State, m: Moment) -> Result<(), Refusal>
    ensures { answer_of result ≡ moment_answer s.now m }
{
    if m > Table::CLOCK_END {
        return Err(Refusal::BeyondTheEnd);
    }
    if m < s.clock {
        return Err(Refusal::BeforeTheClock);
    }
    Ok(())
}

// What is refused of a moment and a thread number; 13, 12, 8.
fn thread_answer(s: &State, m: Moment, i: u16) -> Result<(), Refusal>
    ensures { answer_of result ≡ first (moment_answer s.now m) (thread_answer s.now i) }
{
    moment_answer(s, m)?;
    if i as usize >= s.count {
        return Err(Refusal::NoSuchThread);
    }
    Ok(())
}

// What is refused before any tick is run; 13, 12, 8.
#[tactic(auto, unfolding(rules::specs::Reading::before_ticks))]
pub fn before_ticks(s: &State, e: Record) -> Result<(), Refusal>
    ensures { answer_of result ≡ before_ticks s.now e }
{
    match e {
        Record::Arrival(m, i) | Record::Completion(m, i) | Record::Drop(m, i) => {
            thread_answer(s, m, i)
        }
        Record::RunTo(m) => moment_answer(s, m),
        Record::Head(..) | Record::Row(_) => Ok(()),
    }
}

// The moment of an event; of a head or a row the present one.
pub fn moment_of(e: Record, now: Moment) -> Moment
    ensures { result ≡ moment_of e now }
{
    match e {
        Record::Arrival(m, _) | Record::Completion(m, _) | Record::Drop(m, _) => m,
        Record::RunTo(m) => m,
        Record::Head(..) | Record::Row(_) => now,
    }
}

// The event itself, at its moment; 10, 9, 11.
fn at_its_moment(s: State, e: Record) -> Result<State, Refusal>
    requires { Given s }
    ensures { answered s result ≡ at_its_moment s e }
{
    match e {
        Record::Arrival(_, i) => arrive(s, i),
        Record::Completion(_, i) => complete(s, i),
        Record::Drop(_, i) => drop_waiting(s, i),
        Record::Head(..) | Record::Row(_) | Record::RunTo(_) => Ok(s),
    }
}

// An event: the ticks before its moment, then the event itself; 16, 13, 12, 8, 10, 9, 11.
pub fn event(r: Reading, e: Record) -> Result<Reading, Refusal>
    requires { GivenReading r }
    ensures { read_from r result ≡ event_in r e }
{
    if !all_rows(&r) {
        return Err(Refusal::NotInItsPlace);
    }
    before_ticks(&r.state, e)?;
    let passed = pass(r.state, moment_of(e, r.state.clock))?;
    let state = at_its_moment(passed, e)?;
    Ok(Reading { state, ..r })
}
