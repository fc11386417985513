// Completions, arrivals and drops, at the present clock.
#![tactic(auto)]

ghost use Rattle.std.specs.Prelude.{◌≡◌, ◌<◌, ◌≤◌};
ghost use Rattle.rules.specs.Limits.{max_jobs, clock_end};
ghost use Rattle.rules.specs.Threads.{at, with_rows};
ghost use Rattle.rules.specs.Completion.{goes_on, stays, completing, completion};
ghost use Rattle.rules.specs.Arrival as arriving;
ghost use Rattle.rules.specs.Arrival.{arrival};
ghost use Rattle.rules.specs.Drop.{head_only, dropped};
ghost use Rattle.rules.specs.Calls.{Given};
ghost use Rattle.rules.specs.Refusals.{answered};
ghost use Rattle.promises.specs.Ready.{Steady};
ghost use Rattle.promises.specs.Sound.{RowOk};

mod leaving;

use crate::leaving::leaving;
use quantities::{Moment, Phase, Refusal, State, Table, Thread};
use threads::amounts::scaled;
use threads::receiving::{ending, find_receiver};
use threads::thread::lighter;

// A job waits: the deadline is one period after W, unless it is later already.
fn next_job(t: Thread) -> Thread
    requires { RowOk t × (1 < t.jobs) }
    ensures { result ≡ goes_on t }
{
    Thread {
        jobs: t.jobs - 1,
        e: t.e.max(t.w + scaled(t.share, Moment(t.period))),
        ..t
    }
}

// No job waits, and W is ahead of the clock.
fn staying(t: Thread) -> Thread
    ensures { result ≡ stays t }
{
    Thread {
        phase: Phase::NonContending,
        jobs: 0,
        ..t
    }
}

// Step 1, for the thread k.
#[tactic(auto, using(crate::proofs::Received::received, promises::specs::Sound::sound), unfolding(rules::specs::Completion::completing, rules::specs::Completion::gives, rules::specs::Threads::lose_at))]
fn finish(s: &mut State, k: usize)
    requires { Steady s.old × (k < s.old.count) }
    ensures { s.new ≡ with_rows s.old (completing s.old.clock.0 s.old.count k (at s.old.threads k) s.old.threads) }
{
    let t = s.threads[k];
    if t.jobs > 1 {
        s.threads[k] = next_job(t);
        return;
    }
    let due = scaled(t.share, s.clock);
    if due < t.w {
        s.threads[k] = staying(t);
        return;
    }
    s.threads[k] = ending(t);
    if let Some(b) = find_receiver(*s, t) {
        s.threads[b] = lighter(s.threads[b], due - t.w);
    }
}

// The thread i completes the job at its head; 8, 10, 9.
#[tactic(auto, using(promises::specs::Always::given_good, promises::specs::Ready::steady), unfolding(rules::specs::Completion::completion, rules::specs::Completion::after_completion))]
pub fn complete(mut s: State, i: u16) -> Result<State, Refusal>
    requires { Given s }
    ensures { answered s result ≡ completion s i }
{
    let k = i as usize;
    if k >= s.count {
        return Err(Refusal::NoSuchThread);
    }
    if s.closed {
        return Err(Refusal::AfterAnArrival);
    }
    if k != s.had || s.completed {
        return Err(Refusal::NotItsTick);
    }
    finish(&mut s, k);
    s.completed = true;
    Ok(s)
}

// Step 3 for one thread: a job more at the moment now.
#[tactic(auto, unfolding(rules::specs::Arrival::arrive))]
fn woken(t: Thread, now: Moment) -> Thread
    requires { RowOk t × (t.jobs < max_jobs) × (now.0 ≤ clock_end) }
    ensures { result ≡ arriving.arrive now.0 t }
{
    let period = scaled(t.share, Moment(t.period));
    let (w, e) = match t.phase {
        Phase::Inactive => {
            let w = scaled(t.share, now);
            (w, w + period)
        }
        Phase::Contending => (t.w, t.e),
        Phase::NonContending => (t.w, t.w + period),
    };
    Thread {
        phase: Phase::Contending,
        jobs: t.jobs + 1,
        w,
        e,
        ..t
    }
}

// A job of the thread i arrives; 8, 11.
#[tactic(auto, using(promises::specs::Sound::given_sound), unfolding(rules::specs::Arrival::arrival))]
pub fn arrive(mut s: State, i: u16) -> Result<State, Refusal>
    requires { Given s }
    ensures { answered s result ≡ arrival s i }
{
    let k = i as usize;
    if k >= s.count {
        return Err(Refusal::NoSuchThread);
    }
    if s.threads[k].jobs >= Table::MAX_JOBS {
        return Err(Refusal::TooManyJobs);
    }
    leaving(&mut s);
    s.threads[k] = woken(s.threads[k], s.clock);
    s.closed = true;
    Ok(s)
}

// Only the job at the head is left.
#[tactic(auto, unfolding(rules::specs::Drop::head_only))]
fn head_only(t: Thread) -> Thread
    ensures { result ≡ head_only t }
{
    Thread {
        jobs: t.jobs.min(1),
        ..t
    }
}

// The thread i keeps only the job at its head; 8.
#[tactic(auto, using(promises::specs::Sound::given_sound), unfolding(rules::specs::Drop::dropped))]
pub fn drop_waiting(mut s: State, i: u16) -> Result<State, Refusal>
    requires { Given s }
    ensures { answered s result ≡ dropped s i }
{
    let k = i as usize;
    if k >= s.count {
        return Err(Refusal::NoSuchThread);
    }
    s.threads[k] = head_only(s.threads[k]);
    Ok(s)
}
