// Refusals 1 to 7: of a head, of a row, and of a whole table.
ghost use Rattle.std.specs.Prelude.{◌≡◌};
ghost use Rattle.rules.specs.Limits.{usual_period};
ghost use Rattle.rules.specs.Table.{opening};

use crate::say::answer;
use quantities::{Row, State, Table};

pub fn row_of(app: u16, share: u16, period: u32) -> Row {
    Row { app, share, period }
}

// So many threads with the same row.
pub fn alike(q: u16, threads: u16, x: Row) -> Table {
    Table {
        q,
        threads,
        rows: [x; Table::MAX_THREADS],
    }
}

// The schedule of a table; of a refused one there is none, so no thread.
pub fn schedule_of(t: Table) -> State
    ensures { result ≡ (opening usual_period t).state }
{
    tables::begin(t).unwrap_or(tables::no_schedule())
}

fn head(rt: &impl Print, q: u16, threads: u16) {
    let _ = print!(rt; "head, Q {q}, threads {threads}");
    answer(rt, "admitted", &tables::head(q, threads));
    let _ = println!(rt);
}

fn row(rt: &impl Print, q: u16, before: u32, app: u16, share: u16, period: u32) {
    let _ = print!(rt;
        "row, Q {q}, shares before it {before}, application {app}, share {share}, period {period}"
    );
    answer(
        rt,
        "admitted",
        &tables::row(q, before, row_of(app, share, period)),
    );
    let _ = println!(rt);
}

fn begin(rt: &impl Print, t: Table) {
    answer(rt, "admitted", &tables::begin(t));
    let _ = println!(rt; ", a schedule of {}", schedule_of(t).count);
}

fn table(rt: &impl Print, q: u16, threads: u16, share: u16) {
    let _ = print!(rt; "table, Q {q}, threads {threads} of share {share}");
    begin(rt, alike(q, threads, row_of(15, share, 65536)));
}

fn table_of_two(rt: &impl Print, share: u16, app: u16, next: u16) {
    let _ = print!(rt; "table, Q 10, share {share}, then application {app} and share {next}");
    let mut t = alike(10, 2, row_of(0, share, 10));
    t.rows[1] = row_of(app, next, 10);
    begin(rt, t);
}

fn heads(rt: &impl Print) {
    head(rt, 0, 1);
    head(rt, 1, 1);
    head(rt, 4096, 1);
    head(rt, 4097, 1);
    head(rt, 10, 0);
    head(rt, 10, 64);
    head(rt, 10, 65);
    head(rt, 0, 0);
}

fn rows(rt: &impl Print) {
    row(rt, 10, 0, 15, 10, 1);
    row(rt, 10, 0, 16, 10, 1);
    row(rt, 10, 0, 0, 0, 65536);
    row(rt, 10, 0, 0, 1, 65536);
    row(rt, 10, 0, 0, 11, 65536);
    row(rt, 10, 0, 0, 10, 65537);
    row(rt, 100, 0, 0, 1, 0);
    row(rt, 101, 0, 0, 1, 0);
    row(rt, 10, 0, 0, 2, 5);
    row(rt, 10, 0, 0, 3, 3);
    row(rt, 10, 6, 0, 4, 10);
    row(rt, 10, 6, 0, 5, 10);
}

// Where two refusals of a row apply, the lower number is given.
fn rows_in_order(rt: &impl Print) {
    row(rt, 10, 0, 16, 0, 1);
    row(rt, 10, 0, 0, 0, 65537);
    row(rt, 10, 6, 0, 5, 65537);
    row(rt, 10, 6, 0, 5, 1);
}

fn tables_whole(rt: &impl Print) {
    table(rt, 4096, 64, 64);
    table(rt, 4097, 64, 64);
    table(rt, 4096, 65, 63);
    table(rt, 1, 1, 1);
    table(rt, 0, 1, 1);
    table(rt, 1, 0, 1);
    table_of_two(rt, 6, 1, 4);
    table_of_two(rt, 6, 1, 5);
    table_of_two(rt, 0, 16, 5);
}

// 0 in a row stands for 100.
fn usual_period(rt: &impl Print) {
    let s = schedule_of(alike(100, 1, row_of(0, 1, 0)));
    let _ = println!(rt;
        "table, period 0: a thread of period {}",
        s.threads[0].period
    );
}

pub fn run(rt: &impl Print) {
    heads(rt);
    rows(rt);
    rows_in_order(rt);
    tables_whole(rt);
    usual_period(rt);
}
