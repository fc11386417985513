// The schedule's calls for C and Rust, which `capi_c` exports. A state goes in and out by value;
// in place of an enum, which cannot cross, stands a number.
#![tactic(auto)]

ghost use Rattle.std.specs.Prelude.{◌≡◌};
ghost use Rattle.rules.specs.Limits.{usual_period};
ghost use Rattle.rules.specs.Threads.{free_of};
ghost use Rattle.rules.specs.Table.{opening};
ghost use Rattle.rules.specs.Completion.{completion};
ghost use Rattle.rules.specs.Arrival.{arrival};
ghost use Rattle.rules.specs.Drop.{dropped};
ghost use Rattle.rules.specs.Step.{stepped};
ghost use Rattle.rules.specs.Run.{ran};
ghost use Rattle.rules.specs.Calls.{Given};
ghost use Rattle.rules.specs.Refusals.{answered};
ghost use Rattle.capi.specs.Crossing.{phase_of, outside, inside, outside_state, inside_state, crossed, crossed_step};

use quantities::{Amount, Moment, Outcome, Phase, Refusal, State, Stepped, Table, Thread};

// A thread outside: phase 0 is inactive, 1 contending, 2 non-contending.
#[repr(C)]
#[derive(Clone, Copy, Default)]
pub struct OutThread {
    pub app: u8,
    pub phase: u8,
    pub share: u32,
    pub period: u32,
    pub jobs: u32,
    pub w: Amount,
    pub e: Amount,
}

#[repr(C)]
#[derive(Clone, Copy)]
pub struct OutState {
    pub threads: [OutThread; Table::MAX_THREADS],
    pub count: usize,
    pub had: usize,
    pub q: u32,
    pub clock: Moment,
    pub completed: bool,
    pub closed: bool,
}

// An answer outside: the refusal's number, or 0 where nothing is refused.
#[repr(C)]
#[derive(Clone, Copy)]
pub struct OutAnswered {
    pub refusal: u8,
    pub state: OutState,
}

// What a step answers outside: the refusal's number, or 0; then the thread, or 65,535 for an idle tick.
#[repr(C)]
#[derive(Clone, Copy)]
pub struct OutStepped {
    pub refusal: u8,
    pub thread: u16,
    pub state: OutState,
}

impl From<Thread> for OutThread {
    ghost from_gives = { λ t r. r ≡ outside t };

    fn from(t: Thread) -> OutThread {
        OutThread {
            app: t.app,
            phase: t.phase as u8,
            share: t.share,
            period: t.period,
            jobs: t.jobs,
            w: t.w,
            e: t.e,
        }
    }
}

fn phase_of(n: u8) -> Phase
    ensures { result ≡ phase_of n }
{
    match n {
        1 => Phase::Contending,
        2 => Phase::NonContending,
        _ => Phase::Inactive,
    }
}

impl From<OutThread> for Thread {
    ghost from_gives = { λ t r. r ≡ inside t };

    fn from(t: OutThread) -> Thread {
        Thread {
            app: t.app,
            phase: phase_of(t.phase),
            share: t.share,
            period: t.period,
            jobs: t.jobs,
            w: t.w,
            e: t.e,
        }
    }
}

impl From<&State> for OutState {
    ghost from_gives = { λ s r. r ≡ outside_state s.now };

    // a call of its own, so that what it holds takes no stack while a tick is taken
    #[inline(never)]
    fn from(s: &State) -> OutState {
        let mut threads = [OutThread::default(); Table::MAX_THREADS];
        for (i, t) in s.threads.iter().enumerate() {
            threads[i] = (*t).into();
        }
        OutState {
            threads,
            count: s.count,
            had: s.had,
            q: s.q,
            clock: s.clock,
            completed: s.completed,
            closed: s.closed,
        }
    }
}

impl From<&OutState> for State {
    ghost from_gives = { λ s r. r ≡ inside_state s.now };

    // a call of its own, as above
    #[inline(never)]
    fn from(s: &OutState) -> State {
        let mut threads = [Thread::default(); Table::MAX_THREADS];
        for (i, t) in s.threads.iter().enumerate() {
            threads[i] = (*t).into();
        }
        State {
            threads,
            count: s.count,
            had: s.had,
            q: s.q,
            clock: s.clock,
            completed: s.completed,
            closed: s.closed,
        }
    }
}

impl From<Stepped> for OutStepped {
    ghost from_gives = { λ r o. o ≡ crossed_step r };

    fn from(r: Stepped) -> OutStepped {
        let (refusal, thread) = match r.outcome {
            Outcome::Grant(i) => (0, i),
            Outcome::Idle => (0, Table::IDLE),
            Outcome::Refused(n) => (n, Table::IDLE),
        };
        OutStepped {
            refusal,
            thread,
            state: (&r.state).into(),
        }
    }
}

// What is answered from the state s; where it is refused, s stays.
fn answer_out(s: &State, r: &Result<State, Refusal>) -> OutAnswered
    ensures { result ≡ crossed (answered s.now r.now) }
{
    let (refusal, z) = match r {
        Ok(z) => (0, z),
        Err(e) => (*e as u8, s),
    };
    OutAnswered {
        refusal,
        state: z.into(),
    }
}

pub fn bollardine_begin(t: Table) -> OutAnswered
    ensures { result ≡ crossed (opening usual_period t) }
{
    answer_out(&tables::no_schedule(), &tables::begin(t))
}

pub fn bollardine_complete(s: OutState, i: u16) -> OutAnswered
    requires { Given (inside_state s) }
    ensures { result ≡ crossed (completion (inside_state s) i) }
{
    let s = State::from(&s);
    answer_out(&s, &events::complete(s, i))
}

pub fn bollardine_arrive(s: OutState, i: u16) -> OutAnswered
    requires { Given (inside_state s) }
    ensures { result ≡ crossed (arrival (inside_state s) i) }
{
    let s = State::from(&s);
    answer_out(&s, &events::arrive(s, i))
}

pub fn bollardine_drop(s: OutState, i: u16) -> OutAnswered
    requires { Given (inside_state s) }
    ensures { result ≡ crossed (dropped (inside_state s) i) }
{
    let s = State::from(&s);
    answer_out(&s, &events::drop_waiting(s, i))
}

pub fn bollardine_step(s: OutState) -> OutStepped
    requires { Given (inside_state s) }
    ensures { result ≡ crossed_step (stepped (inside_state s)) }
{
    schedule::step::step((&s).into()).into()
}

pub fn bollardine_run(s: OutState, to: u32, row: &mut [u16]) -> OutAnswered
    requires { Given (inside_state s) }
    ensures { (result ≡ crossed (ran (inside_state s) to row.old).result) × (row.new ≡ (ran (inside_state s) to row.old).row) }
{
    let s = State::from(&s);
    answer_out(&s, &schedule::step::run(s, Moment(to), row))
}

pub fn bollardine_free_share(s: OutState, a: u16) -> u32
    requires { Given (inside_state s) }
    ensures { result ≡ free_of a (inside_state s) }
{
    schedule::look::free_share((&s).into(), a)
}
