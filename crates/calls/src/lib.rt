// A call that tells of a trace: from a window of the input into a lent output.
#![tactic(auto)]

ghost use Rattle.std.specs.Prelude.{◌≡◌, ◌+◌, ◌≤◌, length, IfOk, IfErr};
ghost use Rattle.std.proofs.lemmas.List.Edits.{sets};
ghost use Rattle.windows.specs.Advance.{farthest};
ghost use Rattle.rules.specs.Refusals.{number};
ghost use Rattle.rules.specs.Listing.{refusal_line};
ghost use Rattle.calls.specs.Parts.{turn_at, Framed};
ghost use Rattle.calls.specs.Acts.{Opens, Acted, Refuses, ActedTo, Calls};

mod told;

pub use crate::told::{Told, Turn};
use quantities::{Frame, Refusal};

// No record is longer; no record starts later.
const WIDEST: usize = 65537;

pub const FARTHEST: u64 = 18446744073709486078;

// The last line is a refusal.
fn stop<T: Told>(out: &mut [u8], turn: &mut Turn<T>, e: Refusal)
    requires { turn.old.written + T.ROOM ≤ length out.old }
    ensures value { turn.new ≡ turn_at turn.old.taken (turn.old.written + length (refusal_line (number e) (T.place turn.old.progress))) (T.finished turn.old.progress) }
    ensures out_after { out.new ≡ sets out.old turn.old.written (refusal_line (number e) (T.place turn.old.progress)) }
{
    turn.written = text::refusal(out, turn.written, e as u8, turn.progress.place());
    turn.progress.finish();
}

// The input ends between records.
fn finish<T: Told>(out: &mut [u8], turn: &mut Turn<T>)
    requires { T.Given turn.old.progress × (T.place turn.old.progress ≤ farthest) × (turn.old.written + T.ROOM ≤ length out.old) }
    ensures value { turn.new ≡ turn_at turn.old.taken (turn.old.written + length (T.ending turn.old.progress)) (T.finished turn.old.progress) }
    ensures out_after { out.new ≡ sets out.old turn.old.written (T.ending turn.old.progress) }
    ensures fits { turn.old.written + length (T.ending turn.old.progress) ≤ length out.old }
{
    match turn.progress.end(out, turn.written) {
        Ok(written) => {
            turn.written = written;
            turn.progress.finish();
        }
        Err(refusal) => stop(out, turn, refusal),
    }
}

// Reads a whole record of this kind, of n bytes.
fn read<T: Told>(
    w: &[u8],
    out: &mut [u8],
    turn: &mut Turn<T>,
    kind: u16,
    n: usize,
) -> Result<(), Refusal>
    requires { Opens T.Told w.now out.old turn.old × Framed w.now turn.old.taken kind n }
    ensures ok { IfOk result (λ _. Acted T.Told w.now out.old turn.old out.new turn.new) }
    ensures err { IfErr result (Refuses T.Told w.now out.old turn.old out.new turn.new) }
{
    let e = trace::decode(kind, &w[turn.taken + 4..turn.taken + n])?;
    T::known(w, out, turn, n, e)
}

// A whole record of this kind, of n bytes.
fn whole<T: Told>(w: &[u8], out: &mut [u8], turn: &mut Turn<T>, kind: u16, n: usize)
    requires { Opens T.Told w.now out.old turn.old × Framed w.now turn.old.taken kind n }
    ensures { Acted T.Told w.now out.old turn.old out.new turn.new }
{
    if let Err(refusal) = read(w, out, turn, kind, n) {
        stop(out, turn, refusal);
    }
}

// The next part of a call: what stands before a record and the record, or the last lines; or
// nothing, and then the call is over.
fn act<T: Told>(w: &[u8], last: bool, out: &mut [u8], turn: &mut Turn<T>) -> bool
    requires { T.Given turn.old.progress × (turn.old.taken ≤ length w.now) × (turn.old.written ≤ length out.old) }
    ensures { ActedTo T.Told last w.now out.old turn.old out.new turn.new result }
{
    let p = &turn.progress;
    if p.is_done() || out.len() - turn.written < T::ROOM || p.place() > FARTHEST {
        return false;
    }
    let left = w.len() - turn.taken;
    match trace::frame(&w[turn.taken..]) {
        Frame::Ended if last => finish(out, turn),
        Frame::Cut if last || left >= WIDEST => stop(out, turn, Refusal::CutShort),
        Frame::Ended | Frame::Cut => return false,
        Frame::Whole(kind, n) => whole(w, out, turn, kind, n),
    }
    true
}

// A call: as much as the window and the output allow.
pub fn advance<T: Told>(w: &[u8], last: bool, p: T, out: &mut [u8]) -> Turn<T>
    requires { T.Given p }
    ensures { Calls T.Told last w.now out.old p out.new result }
{
    let mut turn = Turn {
        taken: 0,
        written: 0,
        progress: p,
    };
    while act(w, last, out, &mut turn) {}
    turn
}
