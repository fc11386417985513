// Steps of one thread, its amounts, and who receives from it, for the crates that call these alone: the
// functions ask for threads and amounts within bounds, which those crates have from a given state.
#![tactic(auto)]

pub mod amounts;
pub mod receiving;
pub mod thread;
