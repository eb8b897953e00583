// Plays a run script, from the file that is named or from standard input, and prints what each of its lines did.
#![tactic(auto)]

use console::told;
use playing::run;
use std::process::ExitCode;

fn main(rt: HostRuntime) -> ExitCode {
    let outcome = run(&rt);
    told(&rt, outcome)
}
