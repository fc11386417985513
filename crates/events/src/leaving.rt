// Step 2 over all threads, before an arrival.
ghost use Rattle.std.specs.Prelude.{◌≡◌};
ghost use Rattle.rules.specs.Leaving.{gone};
ghost use Rattle.promises.specs.Sound.{Sound};

use quantities::State;
use threads::thread::left;

// Step 2.
#[tactic(auto, unfolding(rules::specs::Leaving::gone))]
pub fn leaving(s: &mut State)
    requires { Sound s.old }
    ensures { s.new ≡ gone s.old }
{
    if s.closed {
        return;
    }
    for i in 0..s.count {
        s.threads[i] = left(s.threads[i], s.clock);
    }
}
