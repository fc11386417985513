// Events that are noted, each in the state before it at its moment.
ghost use Rattle.std.specs.Prelude.{◌≡◌, cond, ◌+◌, ◌<◌, ◌≤◌, eqb, pos, length};
ghost use Rattle.rules.specs.Limits.{nobody};
ghost use Rattle.rules.specs.Threads as threads;
ghost use Rattle.rules.specs.Completion as completion;
ghost use Rattle.rules.specs.Table.{Done};
ghost use Rattle.rules.specs.Arrival as arriving;
ghost use Rattle.rules.specs.Reading.{at_its_moment};
ghost use Rattle.rules.specs.Calls as calls;
ghost use Rattle.rules.specs.Calls.{Given};
ghost use Rattle.rules.specs.History.{receiver_in, happens};
ghost use Rattle.rules.specs.Report.{event_for};
ghost use Rattle.promises.specs.Good.{Good};
ghost use Rattle.stretches.specs.Standing.{Kept};
ghost use Rattle.accounts.specs.Told.{room, Tells};

use crate::activity;
use crate::leaving::{freed, leaving, rest};
use quantities::{Activity, Amount, Record, State, Table};
use threads::amounts::scaled;
use threads::receiving::{ending, find_receiver};
use threads::thread::{inactive, left_unless};

// What is lost where the thread k becomes inactive: what it frees, unless another receives that.
fn lost(s: &State, k: usize) -> Amount
    requires { Good s.now × (k < s.now.count) }
    ensures { result ≡ cond (eqb (receiver_in s.now k) nobody) (threads.amt (completion.freed s.now.clock.0 (threads.at s.now.threads k))) (threads.amt (pos 0)) }
{
    let x = s.threads[k];
    let mut others = *s;
    others.threads[k] = ending(x);
    match find_receiver(others, x) {
        None => freed(x, s.clock),
        Some(_) => Amount(0),
    }
}

// The thread k completes the job at its head.
#[tactic(auto, using(crate::specs::Events::completes_below, crate::specs::Events::completes_share))]
fn completed(
    out: &mut [u8],
    from: usize,
    t: &Table,
    cs: &mut [Activity; Table::APPS],
    s: &State,
    k: usize,
) -> usize
    requires { Good s.now × Kept t.now s.now cs.old × ((completion.completion s.now k).answer ≡ Done) × (from + room ≤ length out.old) }
    ensures tells { Tells t.now cs.old (happens s.now (calls.complete k)) out.old from out.new result cs.new }
    ensures used_bound { result ≤ from + room }
{
    let x = s.threads[k];
    if x.jobs > 1 || scaled(x.share, s.clock) < x.w {
        return from;
    }
    rest(out, from, t, cs, k, lost(s, k), s.clock)
}

// A job of the thread k arrives: it becomes active, unless it is so once those that leave have left.
#[tactic(auto, using(crate::specs::Events::arrives_below, crate::specs::Events::arrives_share))]
fn arrived(
    out: &mut [u8],
    from: usize,
    t: &Table,
    cs: &mut [Activity; Table::APPS],
    s: &State,
    k: usize,
) -> usize
    requires { Good s.now × Kept t.now s.now cs.old × ((arriving.arrival s.now k).answer ≡ Done) × (from + room ≤ length out.old) }
    ensures tells { Tells t.now cs.old (happens s.now (calls.arrive k)) out.old from out.new result cs.new }
    ensures used_bound { result ≤ from + room }
{
    let used = leaving(out, from, t, cs, s);
    if inactive(left_unless(s.closed, s.threads[k], s.clock)) {
        activity::wake(&mut cs[t.rows[k].app as usize], s.clock);
    }
    used
}

// The record e, accepted in the state s.
pub fn event(
    out: &mut [u8],
    from: usize,
    t: &Table,
    cs: &mut [Activity; Table::APPS],
    s: &State,
    e: Record,
) -> usize
    requires { Given s.now × Kept t.now s.now cs.old × ((at_its_moment s.now e).answer ≡ Done) × (from + room ≤ length out.old) }
    ensures tells { Tells t.now cs.old (event_for s.now e) out.old from out.new result cs.new }
    ensures used_bound { result ≤ from + room }
{
    match e {
        Record::Arrival(_, i) => arrived(out, from, t, cs, s, i as usize),
        Record::Completion(_, i) => completed(out, from, t, cs, s, i as usize),
        Record::Head(..) | Record::Row(_) | Record::RunTo(_) | Record::Drop(..) => from,
    }
}
