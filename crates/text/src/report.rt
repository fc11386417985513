// Lines of the report: its heading, and the line of a stretch, which needs more room than a line of
// the listing.
#![tactic(auto, unfolding(crate::specs::Wide::wide_to, crate::specs::Wide::wide_out))]

ghost use Rattle.std.specs.Prelude.{◌≡◌, length};
ghost use Rattle.rules.specs.Report.{report_heading};
ghost use Rattle.text.specs.Put.{put_out, put_to};
ghost use Rattle.text.specs.Line.{HasRoom, Added};
ghost use Rattle.text.specs.Wide.{wide_out, wide_to};
ghost use Rattle.text.specs.Accounts.{word_of, span_text, sums_text, account_line};

use crate::{Line, whole};
use quantities::{Amount, Moment, Stretch};

// No line of a stretch is longer.
pub const WIDE: usize = 128;

// How a stretch ended: no thread was active any more, an idle tick cut it short, or it still holds.
#[derive(Clone, Copy)]
pub enum How {
    Over,
    Idle,
    Open,
}

impl How {
    // The last word of its line.
    fn word(self) -> &'static [u8]
        ensures { result.now ≡ word_of self }
    {
        match self {
            How::Over => b"over",
            How::Idle => b"idle",
            How::Open => b"open",
        }
    }
}

impl Line<'_> {
    // The application, and the moments between which the stretch lies.
    fn span(&mut self, app: u16, since: Moment, until: Moment)
        requires { HasRoom self.old (length (span_text app since.0 until.0)) }
        ensures { Added self.old self.new (span_text app since.0 until.0) }
    {
        self.field(app as u64, b' ');
        self.field(since.0 as u64, b' ');
        self.field(until.0 as u64, b' ');
    }

    // What was lost, share × elapsed, and the sum.
    fn sums(&mut self, lost: Amount, share: u64, sum: Amount)
        requires { HasRoom self.old (length (sums_text lost.0 share sum.0)) }
        ensures { Added self.old self.new (sums_text lost.0 share sum.0) }
    {
        self.amount(lost, b' ');
        self.field(share, b' ');
        self.amount(sum, b' ');
    }
}

// The heading line of a report.
pub fn report_heading(out: &mut [u8], at: usize) -> usize
    ensures { (result ≡ put_to out.old at report_heading) × (out.new ≡ put_out out.old at report_heading) }
{
    whole(out, at, b"app from to granted lost share sum end\n")
}

// The line of the stretch c of an application up to the moment `until`, with share × elapsed and the
// sum as numbers.
pub fn stretch(
    out: &mut [u8],
    at: usize,
    app: u16,
    until: Moment,
    c: Stretch,
    share: u64,
    sum: Amount,
    how: How,
) -> usize
    ensures { (result ≡ wide_to out.old at (account_line app until.0 c share sum.0 how)) × (out.new ≡ wide_out out.old at (account_line app until.0 c share sum.0 how)) }
{
    let mut line = Line { out, at };
    if !line.has_room(WIDE) {
        return at;
    }
    line.span(app, c.since, until);
    line.field(c.granted as u64, b' ');
    line.sums(c.lost, share, sum);
    line.bytes(how.word());
    line.byte(b'\n');
    line.at
}
