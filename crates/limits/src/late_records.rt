// Records at the clock's end.
ghost use Rattle.std.specs.Prelude.{◌≤◌, ◌≡◌};
ghost use Rattle.rules.specs.Limits.{clock_end};
ghost use Rattle.rules.specs.Reading.{record_read};
ghost use Rattle.rules.specs.Input.{GivenReading};

use crate::say;
use quantities::{Moment, Reading, Record, Row, State};

// The reading after a record; a refused one leaves it as it was.
fn after(r: Reading, e: Record) -> Reading
    requires { GivenReading r }
    ensures { result ≡ (record_read r e).reading }
{
    reader::record(r, e).unwrap_or(r)
}

// A head and its one row, read, at the moment t, where no event has come. That records give it is
// proved.
fn read_late(t: u32) -> Reading
    requires { t ≤ clock_end }
    ensures { GivenReading result × (result.state.clock.0 ≡ t) }
{
    let headed = after(reader::begin(), Record::Head(1, 1));
    let row = Row {
        app: 0,
        share: 1,
        period: 1,
    };
    let r = after(headed, Record::Row(row));
    Reading {
        state: State {
            clock: Moment(t),
            ..r.state
        },
        ..r
    }
}

// A record with the moment t; what it says stands beside it.
fn taking(rt: &impl Print, r: Reading, what: &str, t: u32, e: Record) -> Reading
    requires { GivenReading r }
    ensures { GivenReading result }
{
    let x = reader::record(r, e);
    let z = x.unwrap_or(r);
    say::run(rt, r.state.clock, what, t, &x);
    say::clock(rt, z.state.clock);
    z
}

fn arrival(rt: &impl Print, r: Reading, t: u32) -> Reading
    requires { GivenReading r }
    ensures { GivenReading result }
{
    taking(
        rt,
        r,
        "record of an arrival at",
        t,
        Record::Arrival(Moment(t), 0),
    )
}

fn run_to(rt: &impl Print, r: Reading, t: u32) -> Reading
    requires { GivenReading r }
    ensures { GivenReading result }
{
    taking(rt, r, "record of a run to", t, Record::RunTo(Moment(t)))
}

pub fn run(rt: &impl Print) {
    let r = arrival(rt, read_late(2147483646), 2147483648);
    let r = arrival(rt, r, 2147483645);
    let r = arrival(rt, r, 2147483646);
    let r = run_to(rt, r, 2147483648);
    let r = run_to(rt, r, 2147483647);
    arrival(rt, r, 2147483647);
}
