// What holds of the rules, in specs/. The one function here ties the limits of the code to those of
// the rules.
#![tactic(auto)]

ghost use Rattle.std.specs.Prelude.{◌≡◌};
ghost use Rattle.rules.specs.Limits.{max_q, max_threads, max_app, apps, max_period, usual_period, max_jobs, clock_end, nobody, idle_entry};

use quantities::{Moment, Table};

#[derive(Clone, Copy)]
struct Limits {
    q: u16,
    threads: usize,
    app: u16,
    apps: usize,
    period: u32,
    usual: u32,
    jobs: u32,
    clock: Moment,
    nobody: usize,
    idle: u16,
}

// The associated constants of the table are the numbers that document 01 fixes.
fn fixed() -> Limits
    ensures table { (result.q ≡ max_q) × (result.threads ≡ max_threads) × (result.app ≡ max_app) × (result.apps ≡ apps) }
    ensures rows { (result.period ≡ max_period) × (result.usual ≡ usual_period) × (result.jobs ≡ max_jobs) }
    ensures clock { (result.clock.0 ≡ clock_end) × (result.nobody ≡ nobody) × (result.idle ≡ idle_entry) }
{
    Limits {
        q: Table::MAX_Q,
        threads: Table::MAX_THREADS,
        app: Table::MAX_APP,
        apps: Table::APPS,
        period: Table::MAX_PERIOD,
        usual: Table::USUAL_PERIOD,
        jobs: Table::MAX_JOBS,
        clock: Table::CLOCK_END,
        nobody: Table::NOBODY,
        idle: Table::IDLE,
    }
}
