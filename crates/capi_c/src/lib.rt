// The static library for C and Rust: each call of `capi`, exported under its own name with its clauses.
#![tactic(auto)]

ghost use Rattle.std.specs.Prelude.{◌≡◌};
ghost use Rattle.rules.specs.Limits.{usual_period};
ghost use Rattle.rules.specs.Threads.{free_of};
ghost use Rattle.rules.specs.Table.{opening};
ghost use Rattle.rules.specs.Completion.{completion};
ghost use Rattle.rules.specs.Arrival.{arrival};
ghost use Rattle.rules.specs.Drop.{dropped};
ghost use Rattle.rules.specs.Step.{stepped};
ghost use Rattle.rules.specs.Run.{ran};
ghost use Rattle.rules.specs.Calls.{Given};
ghost use Rattle.capi.specs.Crossing.{inside_state, crossed, crossed_step};

use capi::{OutAnswered, OutState, OutStepped};
use quantities::Table;

#[unsafe(no_mangle)]
pub extern "C" fn bollardine_begin(t: Table) -> OutAnswered
    ensures { result ≡ crossed (opening usual_period t) }
{
    capi::bollardine_begin(t)
}

#[unsafe(no_mangle)]
pub extern "C" fn bollardine_complete(s: OutState, i: u16) -> OutAnswered
    requires { Given (inside_state s) }
    ensures { result ≡ crossed (completion (inside_state s) i) }
{
    capi::bollardine_complete(s, i)
}

#[unsafe(no_mangle)]
pub extern "C" fn bollardine_arrive(s: OutState, i: u16) -> OutAnswered
    requires { Given (inside_state s) }
    ensures { result ≡ crossed (arrival (inside_state s) i) }
{
    capi::bollardine_arrive(s, i)
}

#[unsafe(no_mangle)]
pub extern "C" fn bollardine_drop(s: OutState, i: u16) -> OutAnswered
    requires { Given (inside_state s) }
    ensures { result ≡ crossed (dropped (inside_state s) i) }
{
    capi::bollardine_drop(s, i)
}

#[unsafe(no_mangle)]
pub extern "C" fn bollardine_step(s: OutState) -> OutStepped
    requires { Given (inside_state s) }
    ensures { result ≡ crossed_step (stepped (inside_state s)) }
{
    capi::bollardine_step(s)
}

#[unsafe(no_mangle)]
pub extern "C" fn bollardine_run(s: OutState, to: u32, row: &mut [u16]) -> OutAnswered
    requires { Given (inside_state s) }
    ensures { (result ≡ crossed (ran (inside_state s) to row.old).result) × (row.new ≡ (ran (inside_state s) to row.old).row) }
{
    capi::bollardine_run(s, to, row)
}

#[unsafe(no_mangle)]
pub extern "C" fn bollardine_free_share(s: OutState, a: u16) -> u32
    requires { Given (inside_state s) }
    ensures { result ≡ free_of a (inside_state s) }
{
    capi::bollardine_free_share(s, a)
}
