// Who receives what a completing thread frees.
ghost use Rattle.std.specs.Prelude.{◌≡◌};
ghost use Rattle.rules.specs.Threads.{someone};
ghost use Rattle.rules.specs.Completion.{ends, takes, receiver};
ghost use Rattle.promises.specs.Sound.{Sound, RowOk};

use crate::thread::{at_rest, closer, deadline, earlier, is_active};
use quantities::{Earliest, State, Thread};

// No job waits, and W is not ahead of the clock.
pub fn ending(t: Thread) -> Thread
    ensures { result ≡ ends t }
{
    Thread {
        jobs: 0,
        ..at_rest(t)
    }
}

// May y receive what x frees?
fn can_take(x: Thread, y: Thread) -> bool
    requires { RowOk x × RowOk y }
    ensures { result ≡ takes x y }
{
    is_active(y) && y.app == x.app && !earlier(deadline(y), deadline(x))
}

// Who receives what x frees.
pub fn find_receiver(s: State, x: Thread) -> Option<usize>
    requires { Sound s × RowOk x }
    ensures { result ≡ someone (receiver s.count x s.threads) }
{
    let mut best: Option<Earliest> = None;
    for i in 0..s.count {
        let t = s.threads[i];
        if can_take(x, t) {
            let it = Earliest {
                thread: i,
                deadline: deadline(t),
            };
            best = closer(best, it);
        }
    }
    best.map(|b| b.thread)
}
