// The report of a trace: from windows of the input into a lent output.
#![tactic(auto)]

ghost use Rattle.std.specs.Prelude.{◌≡◌, IfOk, IfErr};
ghost use Rattle.std.proofs.Common.{arith};
ghost use Rattle.rules.specs.Reading.{ticks_due};
ghost use Rattle.rules.specs.Report.{report_end};
ghost use Rattle.calls.specs.Parts.{Stands};
ghost use Rattle.report.specs.Tallies.{roomy, begun, finished, GivenTally};
ghost use Rattle.report.specs.Given.{given_finished};
ghost use Rattle.report.specs.Ends.{end_some};
ghost use Rattle.report.specs.Events.{is_event};
ghost use Rattle.report.specs.Turns.{Went};
ghost use Rattle.report.specs.Tells.{Brings, Opens, Acted, Refuses, brings_none, brings_then, brings_end, brings_cut, brings_unknown};

use calls::{Told, Turn};
use quantities::{Activity, Reading, Record, Refusal, Table};

// There is room for all lines of a tick or of an event, or for those of the end.
pub const ROOM: usize = 16448;

// A report while it is written: the reading, where the applications stand, the byte at which the
// next record starts, and whether the last line is written.
#[derive(Clone, Copy)]
pub struct Tally {
    pub reading: Reading,
    pub activities: [Activity; Table::APPS],
    pub place: u64,
    pub done: bool,
}

// What a call of the report answers: how many bytes of the window it took, how many bytes of the
// output it wrote, and how far the report has come.
#[derive(Clone, Copy)]
pub struct TallyTurn {
    pub taken: usize,
    pub written: usize,
    pub tally: Tally,
}

// The report begins: nothing is read, and the heading line is written by its own function.
pub fn begin() -> Tally
    ensures { result ≡ begun }
{
    Tally {
        reading: reader::begin(),
        activities: accounts::begin(),
        place: 0,
        done: false,
    }
}

impl Told for Tally {
    const ROOM: usize = ROOM;

    ghost ROOM = { roomy };

    ghost place = { λ p. p.place };

    ghost done = { λ p. p.done };

    ghost finished = { finished };

    ghost Given = { GivenTally };

    ghost ending = { λ p. report_end p.reading p.activities p.place };

    ghost Brings = { Brings };

    ghost roomy = { Prim.omega arith };

    ghost given_finished = { λ p g. given_finished g };

    ghost ending_some = { λ p. end_some p.reading p.activities p.place };

    ghost brings_none = { brings_none };

    ghost brings_then = { brings_then };

    ghost brings_end = { brings_end };

    ghost brings_cut = { brings_cut };

    ghost brings_unknown = { brings_unknown };

    fn place(&self) -> u64 {
        self.place
    }

    fn is_done(&self) -> bool {
        self.done
    }

    fn finish(&mut self) {
        self.done = true;
    }

    // The stretches that still hold, and the last line.
    fn end(&self, out: &mut [u8], at: usize) -> Result<usize, Refusal> {
        reader::ended(&self.reading)?;
        let now = self.reading.state.clock;
        let held = accounts::still_open(out, at, &self.reading.table, &self.activities, now);
        Ok(text::end(out, held, now.0))
    }

    // The ticks before the record and, where there is room left after them, the record.
    fn known(
        w: &[u8],
        out: &mut [u8],
        turn: &mut Turn<Tally>,
        n: usize,
        e: Record,
    ) -> Result<(), Refusal> {
        let d = reader::due(turn.progress.reading, e);
        if d > 0 {
            let r = &mut turn.progress.reading;
            let cs = &mut turn.progress.activities;
            turn.written = accounts::ticks::ticks(out, turn.written, &r.table, cs, &mut r.state, d);
            if out.len() - turn.written < ROOM {
                return Ok(());
            }
        }
        apply(w, out, turn, n, e)
    }
}

// Whether something happens by the record e at its moment.
fn is_event(e: Record) -> bool
    ensures { result ≡ is_event e }
{
    matches!(
        e,
        Record::Arrival(..) | Record::Completion(..) | Record::Drop(..)
    )
}

// The record e of n bytes, for which no tick is due.
fn apply(
    w: &[u8],
    out: &mut [u8],
    turn: &mut Turn<Tally>,
    n: usize,
    e: Record,
) -> Result<(), Refusal>
    requires { Opens w.now out.old turn.old × Stands w.now turn.old.taken n e × (ticks_due turn.old.progress.reading e ≡ 0) }
    ensures ok { IfOk result (λ _. Acted w.now out.old turn.old out.new turn.new) }
    ensures err { IfErr result (Refuses w.now out.old turn.old out.new turn.new) }
{
    let p = &mut turn.progress;
    let next = reader::record(p.reading, e)?;
    if is_event(e) {
        let r = &p.reading;
        let cs = &mut p.activities;
        turn.written = accounts::events::event(out, turn.written, &r.table, cs, &r.state, e);
    }
    p.reading = next;
    p.place += n as u64;
    turn.taken += n;
    Ok(())
}

// A call: as much as the window and the output allow.
pub fn advance(w: &[u8], last: bool, p: Tally, out: &mut [u8]) -> TallyTurn
    requires { GivenTally p }
    ensures { Went last w.now out.old p out.new result }
{
    let t = calls::advance(w, last, p, out);
    TallyTurn {
        taken: t.taken,
        written: t.written,
        tally: t.progress,
    }
}
