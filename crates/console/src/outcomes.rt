// How a run ended.
ghost use Rattle.std.specs.Prelude.{◌≡◌, is_ok, if◌then◌else◌};
ghost use Rattle.std.specs.Process.{exit_status};

use std::fmt::Display;
use std::process::ExitCode;

/// Tells how a run ended: status 0, or one sentence on standard error and status 1.
pub fn told<E: Display + Drop>(rt: &HostRuntime, outcome: Result<(), E>) -> ExitCode
    ensures { exit_status result ≡ (if is_ok outcome then 0 else 1) }
{
    match outcome {
        Ok(()) => ExitCode::SUCCESS,
        Err(error) => {
            // Where even this cannot be said, the exit status still tells.
            let _ = eprintln!(rt; "{error}");
            ExitCode::FAILURE
        }
    }
}
