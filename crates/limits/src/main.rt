// Runs the limits of document 01 that are not proved as examples: for each a line with what was
// tried, inside the limit and outside it, and what was answered. The file stdout has the answers of
// document 01. The limits of records that a listing can show are among the stored traces.
#![tactic(auto)]

mod admission;
mod calls;
mod completions;
mod jobs;
mod late;
mod late_records;
mod records;
mod runs;
mod say;

fn main(rt: HostRuntime) {
    admission::run(&rt);
    completions::run(&rt);
    jobs::run(&rt);
    runs::run(&rt);
    late::run(&rt);
    late_records::run(&rt);
    records::run(&rt);
}
