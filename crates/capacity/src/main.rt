// The program: a trace from standard input, or from the file that is named, and the report of its
// stretches on standard output. The shell reads, calls and writes.
#![tactic(auto)]

ghost use Rattle.std.specs.Prelude.{refl};
ghost use Rattle.rules.specs.Report.{report_heading, report};
ghost use Rattle.report.specs.Given.{given_begun};
ghost use Rattle.report.specs.Tallies.{GivenTally, begun, roomy};
ghost use Rattle.capacity.specs.Calls.{Brings, heading_fits, report_tells};

use report::Tally;
use shell::{Telling, Turn};

// The report of a trace, as far as it has come.
#[derive(Clone, Copy)]
struct Report(Tally);

impl Telling for Report {
    const PROGRAM: &'static str = "capacity";

    ghost told = { report };

    ghost heading = { report_heading };

    ghost room = { roomy };

    ghost begun = { record { 0 = begun } };

    ghost place = { λ p. p.0.place };

    ghost done = { λ p. p.0.done };

    ghost Given = { λ p. GivenTally p.0 };

    ghost Brings = { Brings };

    ghost heading_fits = { heading_fits };

    ghost given_begun = { given_begun };

    ghost undone_begun = { refl };

    ghost tells = { report_tells };

    fn begin() -> Report {
        Report(report::begin())
    }

    fn heading(out: &mut [u8]) -> usize {
        text::report::report_heading(out, 0)
    }

    fn is_done(&self) -> bool {
        self.0.done
    }

    fn advance(self, window: &[u8], last: bool, out: &mut [u8]) -> Turn<Report> {
        let t = report::advance(window, last, self.0, out);
        Turn {
            taken: t.taken,
            written: t.written,
            progress: Report(t.tally),
        }
    }
}

fn main(rt: HostRuntime) {
    let mut buf = [0u8; 131072];
    let mut out = [0u8; 65536];
    shell::serve::<Report>(&rt, &mut buf, &mut out);
}
