// One thread by value, for the modules beside this one alone.
ghost use Rattle.std.specs.Prelude.{◌≡◌, cond, ◌≤◌, IfSome};
ghost use Rattle.integers.specs.Parts.{Small};
ghost use Rattle.rules.specs.Limits.{max_q};
ghost use Rattle.rules.specs.Threads.{is_inactive, is_contending, active, idle, is_earlier, loses};
ghost use Rattle.rules.specs.Leaving.{leave};
ghost use Rattle.rules.specs.Fitting.{fit};
ghost use Rattle.promises.specs.Sound.{RowOk};
ghost use Rattle.promises.specs.Item3.{deadline_of, compare_parts};
ghost use Rattle.promises.specs.Remainders.{Parted};
ghost use Rattle.promises.specs.Tables.{closer_of};

use crate::amounts::{count_of, scaled};
use quantities::{Amount, Deadline, Earliest, Moment, Phase, Thread};
use std::cmp::Ordering;

pub fn inactive(t: Thread) -> bool
    ensures { result ≡ is_inactive t.phase }
{
    t.phase == Phase::Inactive
}

pub fn contends(t: Thread) -> bool
    ensures { result ≡ is_contending t.phase }
{
    t.phase == Phase::Contending
}

pub fn is_active(t: Thread) -> bool
    ensures { result ≡ active t }
{
    !inactive(t)
}

// What the thread adds to the free share of its application.
pub fn spare(t: Thread) -> u32
    ensures { result ≡ cond (is_inactive t.phase) t.share 0 }
{
    if inactive(t) { t.share } else { 0 }
}

// The thread, inactive.
pub fn at_rest(t: Thread) -> Thread
    ensures { result ≡ idle t }
{
    Thread {
        phase: Phase::Inactive,
        w: Amount(0),
        e: Amount(0),
        ..t
    }
}

// Step 2 for one thread.
#[tactic(auto, unfolding(rules::specs::Leaving::leave))]
pub fn left(t: Thread, now: Moment) -> Thread
    requires { t.share ≤ max_q }
    ensures { result ≡ leave now.0 t }
{
    if t.phase != Phase::NonContending || scaled(t.share, now) < t.w {
        return t;
    }
    at_rest(t)
}

// Step 2 for one thread, unless the moment is closed.
pub fn left_unless(closed: bool, t: Thread, now: Moment) -> Thread
    requires { t.share ≤ max_q }
    ensures { result ≡ cond closed t (leave now.0 t) }
{
    if closed { t } else { left(t, now) }
}

// Step 4 for one thread; room is Q − r of its application.
#[tactic(auto, unfolding(rules::specs::Fitting::fit))]
pub fn fit_one(t: Thread, room: u32) -> Thread
    requires { RowOk t }
    ensures { result ≡ fit room t }
{
    if contends(t) && t.e - t.w < Amount::from(room) {
        let e = t.e + scaled(t.share, Moment(t.period));
        return Thread { e, ..t };
    }
    t
}

// The deadline of t in two parts; it is not negative.
pub fn deadline(t: Thread) -> Deadline
    requires { RowOk t }
    ensures { result ≡ deadline_of t }
{
    let e = count_of(t.e);
    let u = t.share as u64;
    Deadline {
        whole: e / u,
        remainder: (e % u) as u32,
        share: t.share,
    }
}

// How the deadline d stands to o, as fractions: by their whole parts, and only where those are equal
// by their remainders, each times the other's share.
pub fn compared(d: Deadline, o: Deadline) -> Ordering
    requires { Parted d × Parted o }
    ensures { result ≡ compare_parts d o }
{
    match d.whole.cmp(&o.whole) {
        Ordering::Equal => (d.remainder * o.share).cmp(&(o.remainder * d.share)),
        unequal => unequal,
    }
}

pub fn earlier(d: Deadline, o: Deadline) -> bool
    requires { Parted d × Parted o }
    ensures { result ≡ is_earlier (compare_parts d o) }
{
    compared(d, o) == Ordering::Less
}

// The earlier of the earliest so far and `it`, which comes after it.
pub fn closer(so_far: Option<Earliest>, it: Earliest) -> Option<Earliest>
    requires { Parted it.deadline × IfSome so_far (λ o. Parted o.deadline) }
    ensures { result ≡ closer_of so_far it }
{
    match so_far {
        Some(o) if !earlier(it.deadline, o.deadline) => so_far,
        _ => Some(it),
    }
}

// d less of W.
pub fn lighter(t: Thread, d: Amount) -> Thread
    requires { Small t.w.0 × Small d.0 }
    ensures { result ≡ loses d.0 t }
{
    Thread { w: t.w - d, ..t }
}
