// The program: a trace from standard input, or from the file that is named, and its listing on
// standard output. The shell reads, calls and writes.
#![tactic(auto)]

ghost use Rattle.std.specs.Prelude.{refl};
ghost use Rattle.rules.specs.Listing.{heading, listing};
ghost use Rattle.text.specs.Laws.{heading_longest};
ghost use Rattle.windows.specs.Advance.{GivenProgress, begun, longest};
ghost use Rattle.windows.specs.Progresses.{given_begun};
ghost use Rattle.bollardine.specs.Calls.{Brings, listing_tells};

use quantities::Progress;
use shell::{Telling, Turn};

// The listing of a trace, as far as it has come.
#[derive(Clone, Copy)]
struct Listing(Progress);

impl Telling for Listing {
    const PROGRAM: &'static str = "bollardine";

    ghost told = { listing };

    ghost heading = { heading };

    ghost room = { longest };

    ghost begun = { record { 0 = begun } };

    ghost place = { λ p. p.0.place };

    ghost done = { λ p. p.0.done };

    ghost Given = { λ p. GivenProgress p.0 };

    ghost Brings = { Brings };

    ghost heading_fits = { heading_longest };

    ghost given_begun = { given_begun };

    ghost undone_begun = { refl };

    ghost tells = { listing_tells };

    fn begin() -> Listing {
        Listing(listing::begin())
    }

    fn heading(out: &mut [u8]) -> usize {
        text::heading(out, 0)
    }

    fn is_done(&self) -> bool {
        self.0.done
    }

    fn advance(self, window: &[u8], last: bool, out: &mut [u8]) -> Turn<Listing> {
        let t = listing::advance(window, last, self.0, out);
        Turn {
            taken: t.taken,
            written: t.written,
            progress: Listing(t.progress),
        }
    }
}

fn main(rt: HostRuntime) {
    let mut buf = [0u8; 131072];
    let mut out = [0u8; 65536];
    shell::serve::<Listing>(&rt, &mut buf, &mut out);
}
