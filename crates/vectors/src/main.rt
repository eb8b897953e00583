// Runs the tag functions on published inputs, as lines on standard input give them, and holds what they give to what
// was published.
#![tactic(auto)]

mod bytes;
mod functions;
mod lines;
mod pieces;
mod proved;
mod stops;

use console::{read_all, told};
use lines::run_line;
use proved::proved_results;
use std::process::ExitCode;
use stops::Stop;
use texts::Lines;

fn main(rt: HostRuntime) -> ExitCode {
    let outcome = run(&rt);
    told(&rt, outcome)
}

fn run(rt: &HostRuntime) -> Result<(), Stop> {
    let text = read_all(rt.alloc(), rt.stdin())?;
    let mut agreed = 0u64;
    for (number, line) in Lines::of(text.as_slice()) {
        match run_line(rt.alloc(), line) {
            Err(stop) => return Err(stop.at(number)),
            Ok(None) => {}
            Ok(Some(function)) => {
                agreed = agreed.saturating_add(1);
                println!(rt; "{number} {function}: as published")?;
            }
        }
    }
    let proved = proved_results();
    println!(rt;
        "{agreed} results as published; {proved} published results are proved of the definitions"
    )?;
    Ok(())
}
