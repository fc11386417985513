// Lines of the listing, as bytes in a lent slice. Each public function puts its line into out from
// `at` on and answers the index after it; where out has fewer than LONGEST bytes from `at` on, it
// writes nothing and answers `at`. The methods of a line are given room.
#![tactic(auto, unfolding(crate::specs::Put::put_to, crate::specs::Put::put_out))]

ghost use Rattle.std.specs.Prelude.{◌≡◌, [], ◌∷◌, ◌+◌, ◌<◌, ◌≤◌, leb, length};
ghost use Rattle.rules.specs.Listing as listing;
ghost use Rattle.rules.specs.Listing.{decimal, signed, grant_line, idle_line, refusal_line, end_line};
ghost use Rattle.text.specs.Put.{put_out, put_to, longest, ended, pair, four, eight};
ghost use Rattle.text.specs.Line.{HasRoom, Added};

pub mod report;

use quantities::Amount;

// No line is longer.
pub const LONGEST: usize = 64;

// The digits of a number below 100, below 10,000 and below 100,000,000, with zeros in front.
fn pair(n: u32) -> [u8; 2]
    requires { n < 100 }
    ensures { result ≡ pair n }
{
    [b'0' + (n / 10) as u8, b'0' + (n % 10) as u8]
}

fn four(n: u32) -> [u8; 4]
    requires { n < 10000 }
    ensures { result ≡ four n }
{
    let [a, b] = pair(n / 100);
    let [c, d] = pair(n % 100);
    [a, b, c, d]
}

// Few numbers are so long that it is called.
#[inline(never)]
fn eight(n: u32) -> [u8; 8]
    requires { n < 100000000 }
    ensures { result ≡ eight n }
{
    let [a, b, c, d] = four(n / 10_000);
    let [e, f, g, h] = four(n % 10_000);
    [a, b, c, d, e, f, g, h]
}

// A line in the making: the lent slice, and where the next byte goes.
#[derive(Drop)]
struct Line<'a> {
    out: &'a mut [u8],
    at: usize,
}

impl Line<'_> {
    fn has_room(&self, room: usize) -> bool
        ensures { result ≡ leb (self.now.at + room) (length self.now.out.now) }
    {
        self.at <= self.out.len() && self.out.len() - self.at >= room
    }

    fn byte(&mut self, b: u8)
        requires { HasRoom self.old 1 }
        ensures { Added self.old self.new (b ∷ []) }
    {
        self.out[self.at] = b;
        self.at += 1;
    }

    fn bytes(&mut self, text: &[u8])
        requires { HasRoom self.old (length text.now) }
        ensures { Added self.old self.new text.now }
    {
        let end = self.at + text.len();
        self.out[self.at..end].copy_from_slice(text);
        self.at = end;
    }

    // A number below 100, below 10,000 and below 100,000,000 in decimal.
    fn below_100(&mut self, n: u32)
        requires { (n < 100) × HasRoom self.old (length (decimal n)) }
        ensures { Added self.old self.new (decimal n) }
    {
        if n < 10 {
            self.byte(b'0' + n as u8);
        } else {
            self.bytes(&pair(n));
        }
    }

    // Inlined, as the listing writes five numbers a tick.
    #[inline(always)]
    fn below_10000(&mut self, n: u32)
        requires { (n < 10000) × HasRoom self.old (length (decimal n)) }
        ensures { Added self.old self.new (decimal n) }
    {
        if n < 100 {
            self.below_100(n);
        } else {
            self.below_100(n / 100);
            self.bytes(&pair(n % 100));
        }
    }

    fn below_100000000(&mut self, n: u32)
        requires { (n < 100000000) × HasRoom self.old (length (decimal n)) }
        ensures { Added self.old self.new (decimal n) }
    {
        if n < 10_000 {
            self.below_10000(n);
        } else {
            self.below_10000(n / 10_000);
            self.bytes(&four(n % 10_000));
        }
    }

    // Any number: what stands before its last eight digits, and those.
    fn decimal(&mut self, n: u64)
        requires { HasRoom self.old (length (decimal n)) }
        ensures { Added self.old self.new (decimal n) }
    {
        if n < 100_000_000 {
            self.below_100000000(n as u32);
        } else {
            self.decimal(n / 100_000_000);
            self.bytes(&eight((n % 100_000_000) as u32));
        }
    }

    fn signed(&mut self, x: Amount)
        requires { HasRoom self.old (length (signed x.0)) }
        ensures { Added self.old self.new (signed x.0) }
    {
        if x.0 < 0 {
            self.byte(b'-');
        }
        self.decimal(x.0.unsigned_abs());
    }

    // A number and the byte after it.
    fn field(&mut self, n: u64, end: u8)
        requires { HasRoom self.old (length (ended (decimal n) end)) }
        ensures { Added self.old self.new (ended (decimal n) end) }
    {
        self.decimal(n);
        self.byte(end);
    }

    // An amount and the byte after it.
    fn amount(&mut self, x: Amount, end: u8)
        requires { HasRoom self.old (length (ended (signed x.0) end)) }
        ensures { Added self.old self.new (ended (signed x.0) end) }
    {
        self.signed(x);
        self.byte(end);
    }
}

// A line that is a text as it stands.
fn whole(out: &mut [u8], at: usize, text: &[u8]) -> usize
    requires { length text.now ≤ longest }
    ensures { (result ≡ put_to out.old at text.now) × (out.new ≡ put_out out.old at text.now) }
{
    let mut line = Line { out, at };
    if !line.has_room(LONGEST) {
        return at;
    }
    line.bytes(text);
    line.at
}

// The heading line.
pub fn heading(out: &mut [u8], at: usize) -> usize
    ensures { (result ≡ put_to out.old at listing.heading) × (out.new ≡ put_out out.old at listing.heading) }
{
    whole(out, at, b"tick thread app deadline virtual\n")
}

// The line of a granted tick.
pub fn granted(
    out: &mut [u8],
    at: usize,
    tick: u32,
    thread: u16,
    app: u8,
    e: Amount,
    w: Amount,
) -> usize
    ensures { (result ≡ put_to out.old at (grant_line tick thread app e.0 w.0)) × (out.new ≡ put_out out.old at (grant_line tick thread app e.0 w.0)) }
{
    let mut line = Line { out, at };
    if !line.has_room(LONGEST) {
        return at;
    }
    line.field(tick as u64, b' ');
    line.field(thread as u64, b' ');
    line.field(app as u64, b' ');
    line.amount(e, b' ');
    line.amount(w, b'\n');
    line.at
}

// The line of an idle tick.
pub fn idle(out: &mut [u8], at: usize, tick: u32) -> usize
    ensures { (result ≡ put_to out.old at (idle_line tick)) × (out.new ≡ put_out out.old at (idle_line tick)) }
{
    let mut line = Line { out, at };
    if !line.has_room(LONGEST) {
        return at;
    }
    line.decimal(tick as u64);
    line.bytes(b" - - - -\n");
    line.at
}

// The refusal n at the byte b of the input.
pub fn refusal(out: &mut [u8], at: usize, n: u8, b: u64) -> usize
    ensures { (result ≡ put_to out.old at (refusal_line n b)) × (out.new ≡ put_out out.old at (refusal_line n b)) }
{
    let mut line = Line { out, at };
    if !line.has_room(LONGEST) {
        return at;
    }
    line.bytes(b"refused ");
    line.decimal(n as u64);
    line.bytes(b" at ");
    line.field(b, b'\n');
    line.at
}

// The end of the input, at the clock t.
pub fn end(out: &mut [u8], at: usize, t: u32) -> usize
    ensures { (result ≡ put_to out.old at (end_line t)) × (out.new ≡ put_out out.old at (end_line t)) }
{
    let mut line = Line { out, at };
    if !line.has_room(LONGEST) {
        return at;
    }
    line.bytes(b"end ");
    line.field(t as u64, b'\n');
    line.at
}
