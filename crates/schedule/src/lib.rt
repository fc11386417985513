// Steps and runs. A caller may call what is in `step` and `look`; each function there asks for a
// given state and no more.
#![tactic(auto)]

pub mod look;
mod passes;
pub mod step;
