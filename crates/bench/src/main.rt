//! How long the work of this repository takes. What was worked out goes to standard output, the times to standard error.
#![tactic(auto)]

mod files;
mod graphs;

use std::io;
use std::time::Instant;

fn main(rt: HostRuntime) -> io::Result<()> {
    files::run(&rt)?;
    graphs::run(&rt)
}

// How long the work took, in nanoseconds, and what came of it.
fn timed<T: Drop, F: FnOnce() -> T>(rt: &HostRuntime, work: F) -> io::Result<(u128, T)>
    requires { F.IsAlwaysCallable work }
{
    let start = Instant::now(rt)?;
    let answer = work();
    Ok((start.elapsed(rt)?.as_nanos(), answer))
}

// How a line says whether a bound was kept.
fn yes_or_no(kept: bool) -> &'static str {
    if kept { "yes" } else { "no" }
}
