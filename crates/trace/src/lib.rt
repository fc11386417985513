// The records of a trace: what stands at the start of the rest of an input, and what the body of a
// record says.
#![tactic(auto)]

ghost use Rattle.std.specs.Prelude.{◌≡◌, ◌≢◌, length, MatchResult};
ghost use Rattle.rules.specs.Records.{frame_of, decoded, le16, le32, moment};
ghost use Rattle.rules.specs.Refusals.{said, CutShort};
ghost use Rattle.windows.specs.Frames.{AtMost};
ghost use Rattle.trace.specs.Kinds.{kind_of, body_said};

use quantities::{Frame, Moment, Record, Refusal, Row};

// The kinds of records.
#[derive(Clone, Copy)]
enum Kind {
    Head,
    Row,
    Arrival,
    Completion,
    RunTo,
    Drop,
}

// A kind by its number in a trace; 15.
impl TryFrom<u16> for Kind {
    type Error = Refusal;

    ghost try_from_gives = { λ n r. r ≡ kind_of n };

    fn try_from(value: u16) -> Result<Kind, Refusal> {
        match value {
            1 => Ok(Kind::Head),
            2 => Ok(Kind::Row),
            3 => Ok(Kind::Arrival),
            4 => Ok(Kind::Completion),
            5 => Ok(Kind::RunTo),
            6 => Ok(Kind::Drop),
            _ => Err(Refusal::UnknownKind),
        }
    }
}

// A body of the length N that its kind has; 14.
fn sized<const N: usize>(b: &[u8]) -> Result<[u8; N], Refusal>
    ensures { MatchResult result (λ x. x ≡ b.now) (λ e. (length b.now ≢ N) × (e ≡ CutShort)) }
{
    b.try_into().map_err(|_| Refusal::CutShort)
}

// The moment and the thread of an event; 14.
fn event(b: &[u8]) -> Result<(Moment, u16), Refusal>
    ensures { MatchResult result (λ x. (length b.now ≡ 6) × (x.0 ≡ moment (le32 b.now 0)) × (x.1 ≡ le16 b.now 4)) (λ e. (length b.now ≢ 6) × (e ≡ CutShort)) }
{
    let [m0, m1, m2, m3, i0, i1] = sized::<6>(b)?;
    Ok((
        Moment(u32::from_le_bytes([m0, m1, m2, m3])),
        u16::from_le_bytes([i0, i1]),
    ))
}

impl Kind {
    // What a body of this kind says; 14.
    fn read(self, b: &[u8]) -> Result<Record, Refusal>
        ensures { said result ≡ body_said self b.now }
    {
        match self {
            Kind::Head => {
                let [q0, q1, n0, n1] = sized::<4>(b)?;
                Ok(Record::Head(u16::from_le_bytes([q0, q1]), u16::from_le_bytes([n0, n1])))
            }
            Kind::Row => {
                let [a0, a1, s0, s1, p0, p1, p2, p3] = sized::<8>(b)?;
                Ok(Record::Row(Row {
                    app: u16::from_le_bytes([a0, a1]),
                    share: u16::from_le_bytes([s0, s1]),
                    period: u32::from_le_bytes([p0, p1, p2, p3]),
                }))
            }
            Kind::Arrival => {
                let (m, i) = event(b)?;
                Ok(Record::Arrival(m, i))
            }
            Kind::Completion => {
                let (m, i) = event(b)?;
                Ok(Record::Completion(m, i))
            }
            Kind::RunTo => Ok(Record::RunTo(Moment(u32::from_le_bytes(sized(b)?)))),
            Kind::Drop => {
                let (m, i) = event(b)?;
                Ok(Record::Drop(m, i))
            }
        }
    }
}

// What a whole record of this kind with the body b says; 15, 14.
#[tactic(auto, unfolding(rules::specs::Records::decoded))]
pub fn decode(kind: u16, b: &[u8]) -> Result<Record, Refusal>
    ensures { said result ≡ decoded kind b.now }
{
    Kind::try_from(kind)?.read(b)
}

// What stands at the start of the rest s of an input.
pub fn frame(s: &[u8]) -> Frame
    ensures value { result ≡ frame_of s.now }
    ensures at_most { AtMost result }
{
    match s {
        [] => Frame::Ended,
        [l0, l1, k0, k1, ..] => {
            let n = u16::from_le_bytes([*l0, *l1]) as usize;
            if n < 2 || s.len() < 2 + n {
                return Frame::Cut;
            }
            Frame::Whole(u16::from_le_bytes([*k0, *k1]), 2 + n)
        }
        _ => Frame::Cut,
    }
}
