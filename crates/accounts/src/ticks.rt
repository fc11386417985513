// Ticks that are noted one after the other.
ghost use Rattle.std.specs.Prelude.{[], ◌∷◌, ◌+◌, ◌*◌, ◌≤◌, length};
ghost use Rattle.rules.specs.Limits.{apps, clock_end};
ghost use Rattle.rules.specs.Calls.{Given};
ghost use Rattle.stretches.specs.Standing.{Kept};
ghost use Rattle.text.specs.Wide.{wide};
ghost use Rattle.accounts.specs.Told.{Tells};
ghost use Rattle.accounts.specs.Ticks.{had_as, Taken, NotedTo};

use crate::leaving::leaving;
use crate::lines::all_held;
use crate::{ROOM, activity};
use quantities::{Activity, Moment, State, Table};
use schedule::step::lead_on;
use text::report::How;

// A tick that `had` had, or nobody: it is granted, or cuts short all stretches that hold.
fn taken(
    out: &mut [u8],
    from: usize,
    t: &Table,
    cs: &mut [Activity; Table::APPS],
    had: usize,
    tick: Moment,
) -> usize
    requires { Taken t.now cs.old had tick.0 × (from + apps * wide ≤ length out.old) }
    ensures tells { Tells t.now cs.old (had_as had tick.0 ∷ []) out.old from out.new result cs.new }
    ensures used_bound { result ≤ from + apps * wide }
{
    if had == Table::NOBODY {
        let used = all_held(out, from, t, cs, tick, How::Idle);
        activity::forget_all(cs);
        return used;
    }
    activity::serve(&mut cs[t.rows[had].app as usize]);
    from
}

// Notes ticks, n at most, while there is room, and leads the schedule through them.
pub fn ticks(
    out: &mut [u8],
    from: usize,
    t: &Table,
    cs: &mut [Activity; Table::APPS],
    s: &mut State,
    n: u32,
) -> usize
    requires { Given s.old × Kept t.now s.old cs.old × (s.old.clock.0 + n ≤ clock_end) × (from ≤ length out.old) }
    ensures { NotedTo t.now cs.old s.old n out.old from out.new result cs.new s.new }
{
    let mut used = from;
    for _ in 0..n {
        if out.len() - used < ROOM {
            break;
        }
        let tick = s.clock;
        used = leaving(out, used, t, cs, s);
        lead_on(s);
        used = taken(out, used, t, cs, s.had, tick);
    }
    used
}
