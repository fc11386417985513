// What a program tells of a trace, in calls from windows of the input into a lent output.
ghost use Rattle.std.specs.Prelude.{◌≡◌, true, false, List, ℕ, Bool, ◌++◌, ◌≤◌, length};
ghost use Rattle.std.proofs.lemmas.List.Edits.{sets};
ghost use Rattle.windows.specs.Feeding.{Bytes};
ghost use Rattle.shell.specs.Turns.{Turns};
ghost use Rattle.shell.specs.Went.{Went};

// What a call answers: how many bytes of the window it took, how many bytes of the output it
// wrote, and how far it has come.
#[derive(Clone, Copy)]
pub struct Turn<T> {
    pub taken: usize,
    pub written: usize,
    pub progress: T,
}

// The listing of a trace or its report, as far as it has come.
pub trait Telling: Copy {
    // The program that tells it, as its messages name it.
    const PROGRAM: &'static str;

    // All that is told of an input, and its first line.
    ghost told: { List ℕ → List ℕ };

    ghost heading: { List ℕ };

    // The room that a call needs to write anything.
    ghost room: { ℕ };

    // Where it begins; the byte at which it goes on; and whether all is told.
    ghost begun: { Self };

    ghost place: { Self → ℕ };

    ghost done: { Self → Bool };

    // Calls gave it.
    ghost Given: { Self → Type 0 };

    // A call with this window, the last or not, and so much room writes this text, takes so many
    // bytes, and brings the one to the other.
    ghost Brings: { Bool → List ℕ → ℕ → Self → List ℕ → ℕ → Self → Type 0 };

    // Nothing is read, and the heading line is written by its own function.
    fn begin() -> Self
        ensures { result ≡ begun };

    // Writes the heading line at the start of out.
    fn heading(out: &mut [u8]) -> usize
        requires { room ≤ length out.old }
        ensures written { result ≡ length heading }
        ensures out_after { out.new ≡ sets out.old 0 heading };

    fn is_done(&self) -> bool
        ensures { result ≡ done self.now };

    // A call: as much as the window and the output allow.
    fn advance(self, window: &[u8], last: bool, out: &mut [u8]) -> Turn<Self>
        requires { Given self }
        ensures { Went room place done Given Brings last window.now out.old self out.new result };

    ghost heading_fits: { length heading ≤ room };

    ghost given_begun: { Given begun };

    ghost undone_begun: { done begun ≡ false };

    // What calls after calls write, until all is told, is told of the whole input.
    ghost tells: { (input text left : List ℕ) (p : Self) → Bytes input → Turns Brings begun input text p left → done p ≡ true → told input ≡ heading ++ text };
}
