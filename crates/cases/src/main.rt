// Runs the library and writes what it answers and leaves: the transform pair, the chart cases, jobs in budgets with refused calls between.
// `stdout` beside src/ is what it must write; tests/ writes it again from direct sums.
#![tactic(auto)]

mod charts;
mod jobs;
mod print;

use std::io;

fn main(rt: HostRuntime) -> io::Result<()> {
    vectors::pairs::run(&rt)?;
    charts::run(&rt)?;
    jobs::run(&rt)
}
