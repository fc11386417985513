// Ticks that are listed one after the other.
ghost use Rattle.std.specs.Prelude.{◌+◌, ◌≤◌, length};
ghost use Rattle.rules.specs.Limits.{clock_end};
ghost use Rattle.rules.specs.Calls.{Given};
ghost use Rattle.listing.specs.Way.{ListedTo};

use quantities::{State, Table};
use schedule::step::lead_on;
use text::LONGEST;

// Lists ticks, n at most, while there is room, and leads the schedule through them.
pub fn ticks(out: &mut [u8], from: usize, s: &mut State, n: u32) -> usize
    requires { Given s.old × (s.old.clock.0 + n ≤ clock_end) × (from ≤ length out.old) }
    ensures { ListedTo out.old from s.old n out.new result s.new }
{
    let mut used = from;
    for _ in 0..n {
        if out.len() - used < LONGEST {
            break;
        }
        lead_on(s);
        let tick = s.clock.0 - 1;
        used = match s.had {
            Table::NOBODY => text::idle(out, used, tick),
            b => {
                let t = &s.threads[b];
                text::granted(out, used, tick, b as u16, t.app, t.e, t.w)
            }
        };
    }
    used
}
