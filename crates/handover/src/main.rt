// The program group once more, for the gate to play a view change in which a proposal is carried over.
#![tactic(auto)]

use console::told;
use playing::run;
use std::process::ExitCode;

fn main(rt: HostRuntime) -> ExitCode {
    let outcome = run(&rt);
    told(&rt, outcome)
}
