// The accounts of the applications: where each stands while a schedule goes on, and a line of text
// for each stretch that ends.
#![tactic(auto)]

ghost use Rattle.std.specs.Prelude.{◌≡◌, ◌+◌, ◌≤◌, length};
ghost use Rattle.rules.specs.Limits.{apps};
ghost use Rattle.rules.specs.Stretches.{all_quiet};
ghost use Rattle.rules.specs.Report.{open_lines};
ghost use Rattle.text.specs.Put.{Put};
ghost use Rattle.accounts.specs.Told.{room};
ghost use Rattle.accounts.specs.Ended.{KeptAt};

mod activity;
pub mod events;
mod leaving;
mod lines;
pub mod ticks;

use crate::lines::all_held;
use quantities::{Activity, Moment, Table};
use text::report::How;

// There is room for all lines of a tick, or of an event.
pub const ROOM: usize = 16384;

// No thread of any application has been active.
pub fn begin() -> [Activity; Table::APPS]
    ensures { result ≡ all_quiet }
{
    [Activity::default(); Table::APPS]
}

// The lines of the stretches that hold at the moment `until`.
pub fn still_open(
    out: &mut [u8],
    from: usize,
    t: &Table,
    cs: &[Activity; Table::APPS],
    until: Moment,
) -> usize
    requires { KeptAt t.now cs.now until.0 × (from + room ≤ length out.old) }
    ensures put { Put out.old from (open_lines t.now until.0 cs.now apps) out.new result }
    ensures upper_bound { result ≤ from + room }
{
    all_held(out, from, t, cs, until, How::Open)
}
