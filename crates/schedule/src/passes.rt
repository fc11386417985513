// The steps over all threads, for the modules beside this one alone.
ghost use Rattle.std.specs.Prelude.{◌≡◌, ◌<◌};
ghost use Rattle.rules.specs.Limits.{nobody, clock_end};
ghost use Rattle.rules.specs.Threads.{free_of};
ghost use Rattle.rules.specs.Fitting.{fitted};
ghost use Rattle.rules.specs.Choice.{chosen, idled};
ghost use Rattle.rules.specs.Charge.{charged, moved};
ghost use Rattle.promises.specs.Good.{Good};
ghost use Rattle.promises.specs.Ready.{Steady};
ghost use Rattle.promises.specs.Sound.{Sound};
ghost use Rattle.promises.specs.Tables.{Table16, led};
ghost use Rattle.promises.specs.Taken.{Left, Best};

use quantities::{Amount, Earliest, Moment, State, Table, Thread};
use threads::thread::{
    at_rest, closer, contends, deadline, fit_one, is_active, left_unless, lighter, spare,
};

// The free share of each application.
pub fn free_table(s: State) -> [u32; Table::APPS]
    requires { Sound s }
    ensures { Table16 (λ a. free_of a s) result }
{
    let mut free = [0; Table::APPS];
    for t in &s.threads[..s.count] {
        free[t.app as usize] += spare(*t);
    }
    free
}

// Step 2, and the free share of each application after it.
pub fn leave(s: &mut State) -> [u32; Table::APPS]
    requires { Good s.old }
    ensures { Left s.old s.new result }
{
    let closed = s.closed;
    let now = s.clock;
    let mut free = [0; Table::APPS];
    for i in 0..s.count {
        let t = left_unless(closed, s.threads[i], now);
        s.threads[i] = t;
        free[t.app as usize] += spare(t);
    }
    free
}

// Who is chosen (5), and who would benefit of each application (6).
#[derive(Clone, Copy)]
pub struct Contest {
    pub chosen: Option<Earliest>,
    pub best: [Option<Earliest>; Table::APPS],
}

// Step 4, and of those that fit by now the earliest; each deadline is parted once.
pub fn fit(s: &mut State, free: &[u32; Table::APPS]) -> Contest
    requires { Steady s.old × Table16 (λ a. free_of a s.old) free.now }
    ensures fit { s.new ≡ fitted s.old }
    ensures chosen { result.chosen ≡ led s.new.threads (chosen s.new) }
    ensures best { Best s.new result.best }
{
    let q = s.q;
    let mut chosen = None;
    let mut best = [None; Table::APPS];
    for i in 0..s.count {
        let x = s.threads[i];
        let a = x.app as usize;
        let t = fit_one(x, q - free[a]);
        s.threads[i] = t;
        if is_active(t) {
            let it = Earliest {
                thread: i,
                deadline: deadline(t),
            };
            best[a] = closer(best[a], it);
            if contends(t) {
                chosen = closer(chosen, it);
            }
        }
    }
    Contest { chosen, best }
}

// The clock moves after the tick that `had` had.
#[tactic(auto, unfolding(rules::specs::Charge::moved))]
fn move_on(s: &mut State, had: usize)
    requires { s.old.clock.0 < clock_end }
    ensures { s.new ≡ moved s.old had }
{
    s.clock = Moment(s.clock.0 + 1);
    s.had = had;
    s.completed = false;
    s.closed = false;
}

// An idle tick: every thread becomes inactive, and the clock moves.
pub fn idle_tick(s: &mut State)
    requires { Sound s.old × (s.old.clock.0 < clock_end) }
    ensures { s.new ≡ moved (idled s.old) nobody }
{
    for i in 0..s.count {
        s.threads[i] = at_rest(s.threads[i]);
    }
    move_on(s, Table::NOBODY);
}

// Step 6, for the thread c: the other applications' free shares go to their beneficiaries, W of c
// grows, and the clock moves.
pub fn charge(
    s: &mut State,
    c: usize,
    free: &[u32; Table::APPS],
    best: &[Option<Earliest>; Table::APPS],
)
    requires { Steady s.old × (c < s.old.count) × (s.old.clock.0 < clock_end) × Table16 (λ a. free_of a s.old) free.now × Best s.old best.now }
    ensures { s.new ≡ moved (charged s.old c) c }
{
    let own = s.threads[c].app as usize;
    let room = s.q - free[own];
    for a in 0..Table::APPS {
        if a != own {
            if let Some(b) = best[a] {
                s.threads[b.thread] = lighter(s.threads[b.thread], Amount::from(free[a]));
            }
        }
    }
    let t = s.threads[c];
    s.threads[c] = Thread {
        w: t.w + Amount::from(room),
        ..t
    };
    move_on(s, c);
}
