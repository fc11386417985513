// Threads that become inactive: by leaving, and at a completion.
ghost use Rattle.std.specs.Prelude.{◌≡◌, ◌+◌, ◌*◌, ◌≤◌, length, set};
ghost use Rattle.rules.specs.Limits.{max_q, max_threads};
ghost use Rattle.rules.specs.Threads.{amt};
ghost use Rattle.rules.specs.Completion as completion;
ghost use Rattle.rules.specs.History as history;
ghost use Rattle.rules.specs.History.{leavings};
ghost use Rattle.rules.specs.Stretches.{activity_at, app_of, rests, over_at};
ghost use Rattle.rules.specs.Report.{over_lines};
ghost use Rattle.promises.specs.Sound.{RowOk};
ghost use Rattle.promises.specs.Good.{Good};
ghost use Rattle.stretches.specs.Standing.{Kept};
ghost use Rattle.text.specs.Put.{Put};
ghost use Rattle.text.specs.Wide.{wide};
ghost use Rattle.accounts.specs.Told.{Tells};
ghost use Rattle.accounts.specs.Rest.{Rests};

use crate::activity;
use crate::lines::line;
use quantities::{Activity, Amount, Moment, Phase, State, Table, Thread};
use text::report::How;
use threads::amounts::scaled;

// Is the thread one that leaves at the moment now?
fn leaves(t: Thread, now: Moment) -> bool
    requires { t.share ≤ max_q }
    ensures { result ≡ history.leaves now.0 t }
{
    t.phase == Phase::NonContending && t.w <= scaled(t.share, now)
}

// u × t − W.
pub fn freed(t: Thread, now: Moment) -> Amount
    requires { RowOk t }
    ensures { result ≡ amt (completion.freed now.0 t) }
{
    scaled(t.share, now) - t.w
}

// The thread i becomes inactive, and z is lost: its application's stretch may be over.
pub fn rest(
    out: &mut [u8],
    at: usize,
    t: &Table,
    cs: &mut [Activity; Table::APPS],
    i: usize,
    z: Amount,
    until: Moment,
) -> usize
    requires { Rests t.now cs.old i z.0 until.0 × (at + wide ≤ length out.old) }
    ensures put { Put out.old at (over_lines t.now (over_at until.0 (app_of t.now i) (rests z.0 (activity_at cs.old (app_of t.now i))))) out.new result }
    ensures activities_value { cs.new ≡ set cs.old (app_of t.now i) (rests z.0 (activity_at cs.old (app_of t.now i))) }
    ensures upper_bound { result ≤ at + wide }
{
    let a = t.rows[i].app as usize;
    let c = &mut cs[a];
    activity::rest(c, z);
    if c.active != 0 {
        return at;
    }
    line(out, at, t, a, *c, until, How::Over)
}

// Step 2: those that leave.
pub fn leaving(
    out: &mut [u8],
    from: usize,
    t: &Table,
    cs: &mut [Activity; Table::APPS],
    s: &State,
) -> usize
    requires { Good s.now × Kept t.now s.now cs.old × (from + max_threads * wide ≤ length out.old) }
    ensures tells { Tells t.now cs.old (leavings s.now) out.old from out.new result cs.new }
    ensures used_bound { result ≤ from + max_threads * wide }
{
    if s.closed {
        return from;
    }
    let mut used = from;
    for i in 0..s.count {
        let x = s.threads[i];
        if leaves(x, s.clock) {
            used = rest(out, used, t, cs, i, freed(x, s.clock), s.clock);
        }
    }
    used
}
