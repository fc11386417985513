// What is written: a line for each call, with the moment, what was tried and what was answered.
use quantities::{Moment, Outcome, Refusal};

// The word for what is taken, or a refusal's number.
pub fn answer<T>(rt: &impl Print, word: &str, r: &Result<T, Refusal>) {
    let _ = match r {
        Ok(_) => print!(rt; ": {word}"),
        Err(e) => print!(rt; ": refused {}", *e as u8),
    };
}

pub fn step(rt: &impl Print, at: Moment, o: Outcome) {
    let _ = print!(rt; "at {}, step: ", at.0);
    let _ = match o {
        Outcome::Grant(i) => print!(rt; "grant {i}"),
        Outcome::Idle => print!(rt; "idle"),
        Outcome::Refused(n) => print!(rt; "refused {n}"),
    };
}

// A run to a moment, or a record of a moment.
pub fn run<T>(rt: &impl Print, at: Moment, what: &str, to: u32, r: &Result<T, Refusal>) {
    let _ = print!(rt; "at {}, {what} {to}", at.0);
    answer(rt, "done", r);
}

// The entries of a row.
pub fn entries(rt: &impl Print, row: &[u16]) {
    let _ = print!(rt; ", row");
    for x in row {
        let _ = print!(rt; " {x}");
    }
}

// Where the clock stands then.
pub fn clock(rt: &impl Print, now: Moment) {
    let _ = println!(rt; ", clock {}", now.0);
}
