// The table that a trace begins with: its head, and its rows one by one.
ghost use Rattle.std.specs.Prelude.{◌≡◌, ◌<◌, ◌^◌, sum_by};
ghost use Rattle.rules.specs.Table as table;
ghost use Rattle.rules.specs.Records as records;
ghost use Rattle.rules.specs.Reading.{record_read};
ghost use Rattle.rules.specs.Input.{GivenReading};
ghost use Rattle.rules.specs.Refusals.{read_from};

use quantities::{Reading, Refusal, Row, Table};

// A head begins the table; 16, 1, 2.
pub fn head(mut r: Reading, q: u16, n: u16) -> Result<Reading, Refusal>
    requires { GivenReading r }
    ensures { read_from r result ≡ record_read r (records.Head q n) }
{
    if r.table.threads != 0 {
        return Err(Refusal::NotInItsPlace);
    }
    tables::head(q, n)?;
    r.table.q = q;
    r.table.threads = n;
    Ok(r)
}

// What the shares of these rows come to.
fn shares(rows: &[Row]) -> u32
    requires { sum_by (λ (x : table.Row). x.share) rows.now < 2 ^ 32 }
    ensures { result ≡ sum_by (λ (x : table.Row). x.share) rows.now }
{
    rows.iter().map(|x| x.share as u32).sum()
}

// A row joins the table, and the last one begins the schedule; 16, 3 to 7.
pub fn row(mut r: Reading, x: Row) -> Result<Reading, Refusal>
    requires { GivenReading r }
    ensures { read_from r result ≡ record_read r (records.Row x) }
{
    let k = r.rows;
    let n = r.table.threads as usize;
    if k >= n {
        return Err(Refusal::NotInItsPlace);
    }
    tables::row(r.table.q, shares(&r.table.rows[..k]), x)?;
    r.table.rows[k] = x;
    r.rows = k + 1;
    if r.rows == n {
        r.state = tables::begin(r.table)?;
    }
    Ok(r)
}
