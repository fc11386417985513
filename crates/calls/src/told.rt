// What is told of a trace, part by part.
ghost use Rattle.std.specs.Prelude.{◌≡◌, true, false, List, [], ℕ, Bool, ◌+◌, ◌-◌, ◌++◌, ◌≤◌, length, drop, IfOk, IfErr};
ghost use Rattle.rules.specs.Refusals.{number};
ghost use Rattle.rules.specs.Listing.{refusal_line};
ghost use Rattle.rules.specs.Records.{Ended, Cut, Whole, frame_of, body_of, decoded};
ghost use Rattle.rules.specs.Records as records;
ghost use Rattle.windows.specs.Advance.{longest, widest, farthest};
ghost use Rattle.windows.specs.Feeding.{Bytes};
ghost use Rattle.calls.specs.Parts.{Written, Stands, Open, ActedOn, Refused};

use quantities::{Record, Refusal};

// What a call answers, and how far it is on its way: how many bytes of the window it took, how many
// bytes of the output it wrote, and how far what is told has come.
#[derive(Clone, Copy)]
pub struct Turn<T> {
    pub taken: usize,
    pub written: usize,
    pub progress: T,
}

// How far what is told of a trace has come.
pub trait Told: Copy {
    // The room that a part of a call needs to write anything.
    const ROOM: usize;

    ghost ROOM: { ℕ };

    // The byte at which the next record starts; whether all is told; and where the last line leaves it.
    ghost place: { Self → ℕ };

    ghost done: { Self → Bool };

    ghost finished: { Self → Self };

    // Calls gave it.
    ghost Given: { Self → Type 0 };

    // The last lines, where the input ends between records.
    ghost ending: { Self → List ℕ };

    // From this window, the last or not, with so much room, this text and so many bytes bring the
    // one to the other.
    ghost Brings: { Bool → List ℕ → ℕ → Self → List ℕ → ℕ → Self → Type 0 };

    fn place(&self) -> u64
        ensures { result ≡ place self.now };

    fn is_done(&self) -> bool
        ensures { result ≡ done self.now };

    // The last line is written.
    fn finish(&mut self)
        ensures { self.new ≡ finished self.old };

    // Writes the last lines, where the input ends between records; or there is a refusal at its end.
    fn end(&self, out: &mut [u8], at: usize) -> Result<usize, Refusal>
        requires { Given self.now × (place self.now ≤ farthest) × (at + ROOM ≤ length out.old) }
        ensures ok { IfOk result (Written out.old at (ending self.now) out.new) }
        ensures err { IfErr result (λ e. (out.new ≡ out.old) × (ending self.now ≡ refusal_line (number e) (place self.now))) };

    // What stands before the record e of n bytes and, where there is room left after it, the record;
    // or it is refused.
    fn known(
        w: &[u8],
        out: &mut [u8],
        turn: &mut Turn<Self>,
        n: usize,
        e: Record,
    ) -> Result<(), Refusal>
        requires { Open ROOM place done Given w.now out.old turn.old × Stands w.now turn.old.taken n e }
        ensures ok { IfOk result (λ _. ActedOn Given Brings w.now out.old turn.old out.new turn.new) }
        ensures err { IfErr result (Refused ROOM place done finished Given Brings w.now out.old turn.old out.new turn.new) };

    // There is room for a line.
    ghost roomy: { longest ≤ ROOM };

    ghost given_finished: { (p : Self) → Given p → Given (finished p) };

    ghost ending_some: { (p : Self) → 1 ≤ length (ending p) };

    ghost brings_none: { (last : Bool) (v : List ℕ) (r : ℕ) (p : Self) → Brings last v r p [] 0 p };

    ghost brings_then: { (last : Bool) (v : List ℕ) (r : ℕ) (p : Self) (t : List ℕ) (n : ℕ) (q : Self) (u : List ℕ) (m : ℕ) (s : Self) → Brings last v r p t n q → Brings last (drop n v) (r - length t) q u m s → Brings last v r p (t ++ u) (n + m) s };

    // The text that the end of the input brings, or a record that is cut short or not known.
    ghost brings_end: { (v : List ℕ) (r : ℕ) (p : Self) → done p ≡ false → ROOM ≤ r → place p ≤ farthest → frame_of v ≡ Ended → Brings true v r p (ending p) 0 (finished p) };

    ghost brings_cut: { (last : Bool) (v : List ℕ) (r : ℕ) (p : Self) → done p ≡ false → ROOM ≤ r → place p ≤ farthest → frame_of v ≡ Cut → Bytes v → (last ≡ false → widest ≤ length v) → Brings last v r p (refusal_line 14 (place p)) 0 (finished p) };

    ghost brings_unknown: { (last : Bool) (v : List ℕ) (r : ℕ) (p : Self) → done p ≡ false → ROOM ≤ r → place p ≤ farthest → (kind n m : ℕ) → frame_of v ≡ Whole kind n → decoded kind (body_of v n) ≡ records.Refused m → Brings last v r p (refusal_line m (place p)) 0 (finished p) };
}
