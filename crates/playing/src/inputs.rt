// Where a script comes from.
use super::stops::Stop;
use console::read_all;
use std::{env, fs};

/// The script's bytes: those of the file that the only argument names, or else all of standard input.
pub fn read_script(rt: &HostRuntime) -> Result<Vec<u8>, Stop> {
    let mut arguments = env::args(rt).map_err(|_| Stop::Arguments)?.skip(1);
    let path = arguments.next();
    if arguments.next().is_some() {
        return Err(Stop::Arguments);
    }
    let bytes = match path {
        Some(path) => fs::read(rt, path.as_str()),
        None => read_all(rt.alloc(), rt.stdin()),
    };
    bytes.map_err(Stop::Unread)
}
