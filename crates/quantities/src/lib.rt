// The types of the schedule, and the limits of its table. What stands here computes on amounts alone.
#![tactic(auto)]

ghost use Rattle.std.specs.Prelude.{◌≡◌, pos, ◌+ℤ◌, ◌-ℤ◌, ◌*ℤ◌};
ghost use Rattle.std.specs.Int.{w64};
ghost use Rattle.std.proofs.Common.{SFits};

use std::ops::{Add, Mul, Sub};

// A moment, or a length of time, in ticks.
#[repr(C)]
#[derive(Clone, Copy, PartialEq, Eq, PartialOrd, Ord, Default)]
pub struct Moment(pub u32);

// An amount in share-ticks. A moment becomes an amount only by multiplying with a share.
#[repr(C)]
#[derive(Clone, Copy, PartialEq, Eq, PartialOrd, Ord, Default)]
pub struct Amount(pub i64);

impl Add for Amount {
    type Output = Amount;

    ghost can_add = { λ a b. SFits w64 (a.0 +ℤ b.0) };

    ghost add_gives = { λ a b r. r ≡ record { 0 = a.0 +ℤ b.0 } };

    fn add(self, rhs: Amount) -> Amount {
        Amount(self.0 + rhs.0)
    }
}

impl Sub for Amount {
    type Output = Amount;

    ghost can_sub = { λ a b. SFits w64 (a.0 -ℤ b.0) };

    ghost sub_gives = { λ a b r. r ≡ record { 0 = a.0 -ℤ b.0 } };

    fn sub(self, rhs: Amount) -> Amount {
        Amount(self.0 - rhs.0)
    }
}

impl Mul<u32> for Amount {
    type Output = Amount;

    ghost can_mul = { λ a u. SFits w64 (a.0 *ℤ pos u) };

    ghost mul_gives = { λ a u r. r ≡ record { 0 = a.0 *ℤ pos u } };

    fn mul(self, rhs: u32) -> Amount {
        Amount(self.0 * rhs as i64)
    }
}

// A number of parts, for one tick.
impl From<u32> for Amount {
    ghost from_gives = { λ n r. r ≡ record { 0 = pos n } };

    fn from(n: u32) -> Amount {
        Amount(n as i64)
    }
}

// A deadline in two parts: whole ticks, and a remainder below the share, in parts of it. E is whole × share + remainder.
#[derive(Clone, Copy)]
pub struct Deadline {
    pub whole: u64,
    pub remainder: u32,
    pub share: u32,
}

// The thread with the earliest deadline among some, and that deadline.
#[derive(Clone, Copy)]
pub struct Earliest {
    pub thread: usize,
    pub deadline: Deadline,
}

#[derive(Clone, Copy, PartialEq, Eq, Default)]
pub enum Phase {
    #[default]
    Inactive,
    Contending,
    NonContending,
}

// A thread: its row of the table, and where it stands. W is u × virtual time, E is u × deadline.
#[derive(Clone, Copy, Default)]
pub struct Thread {
    pub app: u8,
    pub phase: Phase,
    pub share: u32,
    pub period: u32,
    // neither completed nor dropped
    pub jobs: u32,
    pub w: Amount,
    pub e: Amount,
}

// A row of a table as it is written: period 0 stands for the usual one.
#[repr(C)]
#[derive(Clone, Copy, Default)]
pub struct Row {
    pub app: u16,
    pub share: u16,
    pub period: u32,
}

// A table as it is written; its rows are the first `threads` of `rows`.
#[repr(C)]
#[derive(Clone, Copy)]
pub struct Table {
    pub q: u16,
    pub threads: u16,
    pub rows: [Row; Table::MAX_THREADS],
}

// The limits are fixed here, with the table that they bound.
impl Table {
    pub const MAX_Q: u16 = 4096;

    pub const MAX_THREADS: usize = 64;

    pub const MAX_APP: u16 = 15;

    pub const APPS: usize = 16;

    pub const MAX_PERIOD: u32 = 65536;
    // what period 0 in a row stands for
    pub const USUAL_PERIOD: u32 = 100;

    pub const MAX_JOBS: u32 = 65535;

    pub const CLOCK_END: Moment = Moment(2147483647);
    // the number of no thread
    pub const NOBODY: usize = Table::MAX_THREADS;
    // the entry of an idle tick in a lent row
    pub const IDLE: u16 = 65535;
}

// The whole state of the schedule; it goes in and out by value.
#[derive(Clone, Copy)]
pub struct State {
    pub threads: [Thread; Table::MAX_THREADS],
    // how many of them the table has
    pub count: usize,
    // who had the tick just ended, or NOBODY
    pub had: usize,
    pub q: u32,
    pub clock: Moment,
    // a completion was accepted at this moment
    pub completed: bool,
    // the moment is closed to completions: an arrival was accepted at it
    pub closed: bool,
}

// What one step answers: the thread that has the tick, an idle tick, or a refusal by its number.
#[derive(Clone, Copy)]
pub enum Outcome {
    Grant(u16),
    Idle,
    Refused(u8),
}

#[derive(Clone, Copy)]
pub struct Stepped {
    pub outcome: Outcome,
    pub state: State,
}

// What is refused, by its number: `refusal as u8`.
#[derive(Clone, Copy, PartialEq, Eq)]
pub enum Refusal {
    QOutsideItsRange = 1,
    ThreadsOutsideTheirRange = 2,
    NoSuchApplication = 3,
    ShareOutsideItsRange = 4,
    PeriodTooLong = 5,
    LessThanATick = 6, // u × P is below Q
    SharesAboveQ = 7,
    NoSuchThread = 8,
    NotItsTick = 9, // or a second completion at the moment
    AfterAnArrival = 10,
    TooManyJobs = 11,
    BeforeTheClock = 12,
    BeyondTheEnd = 13,
    CutShort = 14, // or of a length that is not that of the kind
    UnknownKind = 15,
    NotInItsPlace = 16,
    RowTooShort = 17,
}

// What stands at the start of the rest of an input: nothing; no whole record, since the input ends
// inside of it or its length is below 2; or a whole record with its kind and its length in bytes,
// the two of the length among them.
#[derive(Clone, Copy)]
pub enum Frame {
    Ended,
    Cut,
    Whole(u16, usize),
}

// What the body of a record says.
#[derive(Clone, Copy)]
pub enum Record {
    Head(u16, u16),
    Row(Row),
    Arrival(Moment, u16),
    Completion(Moment, u16),
    RunTo(Moment),
    Drop(Moment, u16),
}

// A trace while it is read: the table, how many of its rows have come, and the schedule, which
// begins with the last of them. No head has come while the table has no thread.
#[derive(Clone, Copy)]
pub struct Reading {
    pub table: Table,
    pub rows: usize,
    pub state: State,
}

// What an input held whole gives: the answer, the byte at which the refused record starts or the
// input ends, and the reading up to there.
#[derive(Clone, Copy)]
pub struct InputRead {
    pub answer: Result<(), Refusal>,
    pub at: usize,
    pub reading: Reading,
}

// A listing while it is written: the reading, the byte at which the next record starts, and
// whether the last line is written.
#[derive(Clone, Copy)]
pub struct Progress {
    pub reading: Reading,
    pub place: u64,
    pub done: bool,
}

// What a call of the listing answers: how many bytes of the window it took, how many bytes of the
// output it wrote, and the progress.
#[derive(Clone, Copy)]
pub struct Turn {
    pub taken: usize,
    pub written: usize,
    pub progress: Progress,
}

// A stretch of an application: since when it holds, the ticks granted to the application since, and
// the capacity that it lost since.
#[derive(Clone, Copy, Default)]
pub struct Stretch {
    pub since: Moment,
    pub granted: u32,
    pub lost: Amount,
}

// Where an application stands: how many of its threads are active, and the stretch that holds while
// some are.
#[derive(Clone, Copy, Default)]
pub struct Activity {
    pub active: u32,
    pub stretch: Stretch,
}
