// Playing run scripts: a script is read, its header says what is played, and the record of each line is printed.
#![tactic(auto)]

mod closings;
mod counter_runs;
mod dones;
mod group_entries;
mod group_runs;
mod groups;
mod inputs;
mod letters;
mod lists;
mod mail_runs;
mod messages;
mod named;
mod plays;
mod records;
mod register_runs;
mod rounds;
mod seats;
mod services;
mod shows;
mod stops;

use inputs::read_script;
use plays::play;
pub use stops::Stop;

/// Plays the script in the file that the program's argument names, or on standard input, and prints its record.
pub fn run(rt: &HostRuntime) -> Result<(), Stop> {
    let script = read_script(rt)?;
    play(rt, script.as_slice())
}
