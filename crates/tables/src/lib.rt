// Tables: what is refused of one, and the schedule that an admitted one begins.
#![tactic(auto)]

ghost use Rattle.std.specs.Prelude.{◌≡◌, ◌≤◌};
ghost use Rattle.rules.specs.Limits.{max_threads, max_app, usual_period};
ghost use Rattle.rules.specs.Table.{Done, meant, head_answer, row_answer, rows_answer, table_answer, opened, start, no_schedule, opening};
ghost use Rattle.rules.specs.Refusals.{answer_of, answered};

use quantities::{Moment, Refusal, Row, State, Table, Thread};

// What the head of a table answers; 1, 2.
#[tactic(auto, unfolding(rules::specs::Table::head_answer))]
pub fn head(q: u16, threads: u16) -> Result<(), Refusal>
    ensures { answer_of result ≡ head_answer q threads }
{
    if q == 0 || q > Table::MAX_Q {
        return Err(Refusal::QOutsideItsRange);
    }
    if threads == 0 || threads as usize > Table::MAX_THREADS {
        return Err(Refusal::ThreadsOutsideTheirRange);
    }
    Ok(())
}

// The period that a row means.
fn period_meant(p: u32) -> u32
    ensures { result ≡ meant usual_period p }
{
    if p == 0 { Table::USUAL_PERIOD } else { p }
}

// What a row answers after rows whose shares come to `before`; 3, 4, 5, 6, 7.
#[tactic(auto, unfolding(rules::specs::Table::row_answer))]
pub fn row(q: u16, before: u32, x: Row) -> Result<(), Refusal>
    ensures { answer_of result ≡ row_answer usual_period q before x }
{
    let period = period_meant(x.period);
    if x.app > Table::MAX_APP {
        return Err(Refusal::NoSuchApplication);
    }
    if x.share == 0 || x.share > q {
        return Err(Refusal::ShareOutsideItsRange);
    }
    if period > Table::MAX_PERIOD {
        return Err(Refusal::PeriodTooLong);
    }
    if (x.share as u64) * (period as u64) < q as u64 {
        return Err(Refusal::LessThanATick);
    }
    if (before as u64) + (x.share as u64) > q as u64 {
        return Err(Refusal::SharesAboveQ);
    }
    Ok(())
}

// The first refusal among the rows of a table.
fn rows(t: &Table) -> Result<(), Refusal>
    requires { t.now.threads ≤ max_threads }
    ensures { answer_of result ≡ rows_answer usual_period t.now.q t.now.rows t.now.threads }
{
    let mut sum: u32 = 0;
    for x in &t.rows[..t.threads as usize] {
        row(t.q, sum, *x)?;
        sum += x.share as u32;
    }
    Ok(())
}

// A thread as it begins.
fn fresh(x: Row) -> Thread
    requires { x.app ≤ max_app }
    ensures { result ≡ opened usual_period x }
{
    Thread {
        app: x.app as u8,
        share: x.share as u32,
        period: period_meant(x.period),
        ..Thread::default()
    }
}

// No schedule: what stands in the state's place where a table is refused.
pub fn no_schedule() -> State
    ensures { result ≡ no_schedule }
{
    State {
        threads: [Thread::default(); Table::MAX_THREADS],
        count: 0,
        had: Table::NOBODY,
        q: 0,
        clock: Moment(0),
        completed: false,
        closed: false,
    }
}

// The state that an admitted table begins with.
fn started(t: &Table) -> State
    requires { table_answer usual_period t.now ≡ Done }
    ensures { result ≡ start usual_period t.now }
{
    let n = t.threads as usize;
    let mut s = no_schedule();
    for (i, x) in t.rows[..n].iter().enumerate() {
        s.threads[i] = fresh(*x);
    }
    s.count = n;
    s.q = t.q as u32;
    s
}

// A table with all its rows begins a schedule, or is refused with no schedule; 1, 2, then for each
// row 3 to 7.
#[inline(never)] // a call of its own, so that what it holds takes no stack where the answer is handed on
pub fn begin(t: Table) -> Result<State, Refusal>
    ensures { answered no_schedule result ≡ opening usual_period t }
{
    head(t.q, t.threads)?;
    rows(&t)?;
    Ok(started(&t))
}
