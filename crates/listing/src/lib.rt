// The listing of a trace: from windows of the input into a lent output.
#![tactic(auto)]

ghost use Rattle.std.specs.Prelude.{◌≡◌, ◌≤◌, length};
ghost use Rattle.std.proofs.Common.{arith};
ghost use Rattle.std.proofs.lemmas.List.Edits.{sets};
ghost use Rattle.rules.specs.Input.{GivenReading};
ghost use Rattle.rules.specs.Listing.{ending};
ghost use Rattle.windows.specs.Advance as window;
ghost use Rattle.windows.specs.Advance.{GivenProgress, longest, finished, begun};
ghost use Rattle.windows.specs.Goes.{ending_some};
ghost use Rattle.listing.specs.Way.{turn_of};
ghost use Rattle.listing.specs.Tells.{Brings, brings_none, brings_then, brings_end, brings_cut, brings_unknown};

mod sweep;
mod ticks;

use crate::sweep::sweep;
use crate::ticks::ticks;
use calls::Told;
use quantities::{Progress, Record, Refusal, Turn};
use text::LONGEST;

// The listing begins: nothing is read, and the heading line is written by its own function.
pub fn begin() -> Progress
    ensures { result ≡ begun }
{
    Progress {
        reading: reader::begin(),
        place: 0,
        done: false,
    }
}

// How far the listing of a trace has come.
#[derive(Clone, Copy)]
struct Listing(Progress);

impl Told for Listing {
    const ROOM: usize = LONGEST;

    ghost ROOM = { longest };

    ghost place = { λ p. p.0.place };

    ghost done = { λ p. p.0.done };

    ghost finished = { λ p. record { 0 = finished p.0 } };

    ghost Given = { λ p. GivenReading p.0.reading };

    ghost ending = { λ p. ending p.0.reading p.0.place };

    ghost Brings = { Brings };

    ghost roomy = { Prim.omega arith };

    ghost given_finished = { λ p g. g };

    ghost ending_some = { λ p. ending_some p.0.reading p.0.place };

    ghost brings_none = { brings_none };

    ghost brings_then = { brings_then };

    ghost brings_end = { brings_end };

    ghost brings_cut = { brings_cut };

    ghost brings_unknown = { brings_unknown };

    fn place(&self) -> u64 {
        self.0.place
    }

    fn is_done(&self) -> bool {
        self.0.done
    }

    fn finish(&mut self) {
        self.0.done = true;
    }

    fn end(&self, out: &mut [u8], at: usize) -> Result<usize, Refusal> {
        let r = &self.0.reading;
        reader::ended(r)?;
        Ok(text::end(out, at, r.state.clock.0))
    }

    // The ticks before the record, and the record with those after it that are swept.
    fn known(
        w: &[u8],
        out: &mut [u8],
        turn: &mut calls::Turn<Listing>,
        n: usize,
        e: Record,
    ) -> Result<(), Refusal> {
        let p = &mut turn.progress.0;
        let d = reader::due(p.reading, e);
        turn.written = ticks(out, turn.written, &mut p.reading.state, d);
        if out.len() - turn.written < LONGEST {
            return Ok(());
        }
        p.reading = reader::record(p.reading, e)?;
        p.place += n as u64;
        turn.taken = sweep(w, turn.taken + n, p);
        Ok(())
    }
}

// A call: as much as the window and the output allow.
pub fn advance(w: &[u8], last: bool, p: Progress, out: &mut [u8]) -> Turn
    requires { GivenProgress p }
    ensures value { result ≡ turn_of (window.advance last (length out.old) p w.now) }
    ensures out_after { out.new ≡ sets out.old 0 (window.advance last (length out.old) p w.now).text }
    ensures taken_in_bounds { (result.taken ≤ length w.now) × (result.written ≤ length out.old) }
{
    let t = calls::advance(w, last, Listing(p), out);
    Turn {
        taken: t.taken,
        written: t.written,
        progress: t.progress.0,
    }
}
