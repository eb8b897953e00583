// Shows the edges of the rules by the calls that there are, one line for each.
#![tactic(auto)]

mod lines;
mod proved;

use lines::{show_advance, show_bare_new_view, show_group, show_pair, show_present_value};
use proved::proved_edges;

fn main(rt: HostRuntime) -> anyhow::Result<()> {
    run(&rt)
}

fn run(rt: &HostRuntime) -> anyhow::Result<()> {
    for seats in 2..=6 {
        show_group(rt, seats)?;
    }
    show_pair(rt, 2, 5)?;
    show_present_value(rt)?;
    show_bare_new_view(rt)?;
    show_advance(rt, 65_535)?;
    show_advance(rt, 65_536)?;
    proved_edges();
    println!(rt; "all of this is proved of the rules")?;
    Ok(())
}
