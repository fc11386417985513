// Amounts in share-ticks, for the modules beside this one alone.
ghost use Rattle.std.specs.Prelude.{◌≡◌, ◌*◌, ◌≤◌, pos};
ghost use Rattle.integers.specs.Parts.{up, dn};
ghost use Rattle.rules.specs.Limits.{max_q};
ghost use Rattle.rules.specs.Threads.{amt};

use quantities::{Amount, Moment};

// u × t: the one way from a moment to an amount.
pub fn scaled(u: u32, t: Moment) -> Amount
    requires { u ≤ max_q }
    ensures { result ≡ amt (pos (u * t.0)) }
{
    Amount::from(t.0) * u
}

// An amount that is not negative, as a number.
pub fn count_of(a: Amount) -> u64
    requires { dn a.0 ≡ 0 }
    ensures { result ≡ up a.0 }
{
    a.0 as u64
}
