// The lines of stretches: of one, and of all that hold.
ghost use Rattle.std.specs.Prelude.{◌≡◌, ℕ, ◌+◌, ◌*◌, ◌<◌, ◌≤◌, length};
ghost use Rattle.rules.specs.Limits.{apps};
ghost use Rattle.rules.specs.Threads.{amt};
ghost use Rattle.rules.specs.Stretches.{activity_at, share_of};
ghost use Rattle.text.specs.Put.{Put};
ghost use Rattle.text.specs.Wide.{wide};
ghost use Rattle.accounts.specs.Lines.{Fair, Balances, balance_of, Lined, line_of, held_lines};

use quantities::{Activity, Amount, Moment, Stretch, Table};
use text::report::{How, stretch};
use threads::amounts::scaled;

// The total share of the application a.
fn share_of(t: &Table, a: u16) -> u32
    requires { Fair t.now a }
    ensures { result ≡ share_of a t.now }
{
    let mut sum = 0;
    for x in &t.rows[..t.threads as usize] {
        if x.app == a {
            sum += x.share as u32;
        }
    }
    sum
}

// Q times the ticks granted, less share × elapsed, and what was lost.
fn balance(q: u32, share: u32, elapsed: Moment, c: Stretch) -> Amount
    requires { Balances q share elapsed.0 c }
    ensures { result ≡ amt (balance_of q share elapsed.0 c) }
{
    scaled(q, Moment(c.granted)) - scaled(share, elapsed) + c.lost
}

// The line of an application's stretch up to the moment `until`.
pub fn line(
    out: &mut [u8],
    at: usize,
    t: &Table,
    a: usize,
    c: Activity,
    until: Moment,
    how: How,
) -> usize
    requires { Lined t.now a until.0 c × (at + wide ≤ length out.old) }
    ensures put { Put out.old at (line_of t.now a until.0 c how) out.new result }
    ensures upper_bound { result ≤ at + wide }
{
    let k = a as u16;
    let share = share_of(t, k);
    let elapsed = until.0 - c.stretch.since.0;
    let due = share as u64 * elapsed as u64;
    let sum = balance(t.q as u32, share, Moment(elapsed), c.stretch);
    stretch(out, at, k, until, c.stretch, due, sum, how)
}

// The lines of all stretches that hold.
pub fn all_held(
    out: &mut [u8],
    from: usize,
    t: &Table,
    cs: &[Activity; Table::APPS],
    until: Moment,
    how: How,
) -> usize
    requires { ((a : ℕ) → a < apps → Lined t.now a until.0 (activity_at cs.now a)) × (from + apps * wide ≤ length out.old) }
    ensures put { Put out.old from (held_lines t.now how until.0 cs.now apps) out.new result }
    ensures upper_bound { result ≤ from + apps * wide }
{
    let mut used = from;
    for a in 0..Table::APPS {
        let c = cs[a];
        if c.active != 0 {
            used = line(out, used, t, a, c, until, how);
        }
    }
    used
}
