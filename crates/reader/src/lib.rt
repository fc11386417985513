// A trace, read record by record.
#![tactic(auto)]

ghost use Rattle.std.specs.Prelude.{◌≡◌, ℕ};
ghost use Rattle.rules.specs.Reading as rule;
ghost use Rattle.rules.specs.Reading.{fresh, ticks_due, record_read};
ghost use Rattle.rules.specs.Input.{GivenReading, stopped, end_read, read_input};
ghost use Rattle.rules.specs.Refusals.{answer_of, read_from, input_of};

mod event;
mod table;

use crate::event::{all_rows, before_ticks, event, moment_of};
use crate::table::{head, row};
use quantities::{Frame, InputRead, Reading, Record, Refusal, Row, Table};

// Nothing is read; a table with no head hands out no schedule.
pub fn begin() -> Reading
    ensures { result ≡ fresh }
{
    Reading {
        table: Table {
            q: 0,
            threads: 0,
            rows: [Row::default(); Table::MAX_THREADS],
        },
        rows: 0,
        state: tables::no_schedule(),
    }
}

// How many ticks are run before the record e.
pub fn due(r: Reading, e: Record) -> u32
    requires { GivenReading r }
    ensures { result ≡ ticks_due r e }
{
    if !all_rows(&r) {
        return 0;
    }
    match before_ticks(&r.state, e) {
        Ok(()) => moment_of(e, r.state.clock).0 - r.state.clock.0,
        Err(_) => 0,
    }
}

// A record after those before it; 16; 1 to 7; 13, 12, 8; 10, 9, 11.
#[tactic(auto, unfolding(rules::specs::Reading::record_read))]
pub fn record(r: Reading, e: Record) -> Result<Reading, Refusal>
    requires { GivenReading r }
    ensures { read_from r result ≡ record_read r e }
{
    match e {
        Record::Head(q, n) => head(r, q, n),
        Record::Row(x) => row(r, x),
        Record::Arrival(..) | Record::Completion(..) | Record::RunTo(_) | Record::Drop(..) => event(
            r, e,
        ),
    }
}

// A whole record by its kind and body; 15, 14, and then as `record`.
pub fn read(r: Reading, kind: u16, body: &[u8]) -> Result<Reading, Refusal>
    requires { GivenReading r }
    ensures { read_from r result ≡ rule.read r kind body.now }
{
    record(r, trace::decode(kind, body)?)
}

// The input ends between records, at whichever byte; 14 before the last row.
pub fn ended(r: &Reading) -> Result<(), Refusal>
    ensures { (at : ℕ) → stopped (answer_of result) at r.now ≡ end_read r.now at }
{
    if all_rows(r) {
        Ok(())
    } else {
        Err(Refusal::CutShort)
    }
}

// An input held whole, to its end or to the first refusal.
pub fn input(s: &[u8]) -> InputRead
    ensures { input_of result ≡ read_input s.now }
{
    let mut reading = begin();
    let mut at = 0;
    let answer = loop {
        match trace::frame(&s[at..]) {
            Frame::Ended => break ended(&reading),
            Frame::Cut => break Err(Refusal::CutShort),
            Frame::Whole(kind, n) => {
                let body = &s[at + 4..at + n];
                match read(reading, kind, body) {
                    Ok(next) => {
                        reading = next;
                        at += n;
                    }
                    Err(e) => break Err(e),
                }
            }
        }
    };
    InputRead {
        answer,
        at,
        reading,
    }
}
