// Records that change the jobs of one thread alone, read one after the other without a line.
ghost use Rattle.std.specs.Prelude.{◌≡◌, false, ◌≤◌, length, IfSome};
ghost use Rattle.rules.specs.Limits.{max_threads, max_jobs};
ghost use Rattle.rules.specs.Threads.{someone};
ghost use Rattle.rules.specs.Input.{GivenReading};
ghost use Rattle.windows.specs.Advance.{widest};
ghost use Rattle.windows.specs.Plain as plain;
ghost use Rattle.windows.specs.Plain.{at_once, one_more, jobs_after};
ghost use Rattle.listing.specs.Way.{few, seen_at, SweptTo};

use calls::FARTHEST;
use quantities::{Frame, Moment, Phase, Progress, Record, State, Table, Thread};

// The thread of an event at the moment m, where that is now and there is such a thread.
fn at_once(s: &State, m: Moment, i: u16) -> Option<usize>
    requires { s.now.count ≤ max_threads }
    ensures { result ≡ someone (at_once m i s.now.clock.0 s.now.count) }
{
    let k = i as usize;
    if m == s.clock && k < s.count {
        Some(k)
    } else {
        None
    }
}

// The thread that an arrival or a drop at this moment is of.
fn touched(s: &State, e: Record) -> Option<usize>
    requires { s.now.count ≤ max_threads }
    ensures { result ≡ someone (plain.touched e s.now.clock.0 s.now.count) }
{
    match e {
        Record::Arrival(m, i) | Record::Drop(m, i) => at_once(s, m, i),
        Record::Head(..) | Record::Row(_) | Record::Completion(..) | Record::RunTo(_) => None,
    }
}

// One job more, where the thread contends and may have one and the moment is closed.
fn one_more(t: Thread, closed: bool) -> Option<u32>
    ensures { result ≡ few (one_more t closed) }
{
    if t.phase == Phase::Contending && closed && t.jobs < Table::MAX_JOBS {
        Some(t.jobs + 1)
    } else {
        None
    }
}

// How many jobs the thread then has, where the record changes nothing else.
fn jobs_after(t: Thread, e: Record, closed: bool) -> Option<u32>
    requires { t.jobs ≤ max_jobs }
    ensures { result ≡ few (jobs_after t e closed) }
{
    match e {
        Record::Arrival(..) => one_more(t, closed),
        Record::Drop(..) => Some(t.jobs.min(1)),
        Record::Head(..) | Record::Row(_) | Record::Completion(..) | Record::RunTo(_) => None,
    }
}

// The record at the start of w, where it is whole and known, and its length.
fn look(w: &[u8]) -> Option<(Record, usize)>
    ensures value { result ≡ seen_at w.now }
    ensures length_le_widest { IfSome result (λ x. x.1 ≤ widest) }
{
    let Frame::Whole(kind, n) = trace::frame(w) else {
        return None;
    };
    let e = trace::decode(kind, &w[4..n]).ok()?;
    Some((e, n))
}

// Reads records that change the jobs of one thread alone, one after the other.
#[inline(never)] // its loop has the registers to itself
pub fn sweep(w: &[u8], from: usize, p: &mut Progress) -> usize
    requires { GivenReading p.old.reading × (p.old.done ≡ false) × (from ≤ length w.now) }
    ensures { SweptTo w.now from p.old result p.new }
{
    let mut at = from;
    let mut place = p.place;
    while let Some((e, n)) = look(&w[at..]) {
        let s = &mut p.reading.state;
        let Some(k) = touched(s, e) else {
            break;
        };
        let t = s.threads[k];
        let Some(jobs) = jobs_after(t, e, s.closed) else {
            break;
        };
        if place > FARTHEST {
            break;
        }
        s.threads[k] = Thread { jobs, ..t };
        place += n as u64;
        at += n;
    }
    p.place = place;
    at
}
