// What happens to one application by one thing more.
ghost use Rattle.std.specs.Prelude.{◌≡◌, ◌<◌, ◌≤◌, ◌+ℤ◌};
ghost use Rattle.std.specs.Int.{w64};
ghost use Rattle.std.proofs.Common.{SFits};
ghost use Rattle.lists.specs.MapTo.{map_to};
ghost use Rattle.rules.specs.Limits.{apps, clock_end};
ghost use Rattle.rules.specs.Stretches.{wakes, runs, rests, forgets};

use quantities::{Activity, Amount, Moment, Stretch, Table};

// A thread of it becomes active: the first begins a stretch.
#[tactic(auto, unfolding(rules::specs::Stretches::wakes))]
pub fn wake(c: &mut Activity, now: Moment)
    requires { c.old.active ≤ 64 }
    ensures { c.new ≡ wakes now.0 c.old }
{
    if c.active == 0 {
        c.stretch = Stretch {
            since: now,
            ..Stretch::default()
        };
    }
    c.active += 1;
}

// It is granted a tick.
#[tactic(auto, unfolding(rules::specs::Stretches::runs))]
pub fn serve(c: &mut Activity)
    requires { c.old.stretch.granted ≤ clock_end }
    ensures { c.new ≡ runs c.old }
{
    c.stretch.granted += 1;
}

// A thread of it becomes inactive, and z is lost.
#[tactic(auto, unfolding(rules::specs::Stretches::rests))]
pub fn rest(c: &mut Activity, z: Amount)
    requires { (0 < c.old.active) × SFits w64 (c.old.stretch.lost.0 +ℤ z.0) }
    ensures { c.new ≡ rests z.0 c.old }
{
    c.active -= 1;
    c.stretch.lost = c.stretch.lost + z;
}

// No thread of any application is active any more.
pub fn forget_all(cs: &mut [Activity; Table::APPS])
    ensures { cs.new ≡ map_to apps forgets cs.old }
{
    for c in cs.iter_mut() {
        c.active = 0;
    }
}
