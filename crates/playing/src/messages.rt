// Messages in words: type, name, fields and tag on one line, and below it a line for each message that it holds.
use super::lists::Dotted;
use super::stops::Stop;
use message::{Checkpoint, Commit, Message, NewView, Prepare, Prepares, ViewChange};
use texts::Hex;

// How far the lines of messages in a message, and in one of those, are indented.
const HELD: &str = "  ";

const HELD_BELOW: &str = "    ";

/// Prints a message behind what stands on the line already, and the messages that it holds on lines of their own.
pub fn show_message(rt: &HostRuntime, message: &Message) -> Result<(), Stop> {
    match message {
        Message::Prepare(prepare) => show_prepare(rt, prepare),
        Message::Commit(commit) => show_commit(rt, commit),
        Message::Checkpoint(checkpoint) => show_checkpoint(rt, checkpoint),
        Message::ViewChange(change) => show_view_change(rt, change, HELD),
        Message::NewView(new_view) => show_new_view(rt, new_view),
    }
}

fn show_prepare(rt: &HostRuntime, prepare: &Prepare) -> Result<(), Stop> {
    let Prepare {
        view,
        order,
        tag,
        ..
    } = prepare;
    println!(rt;
        "1 PREPARE view {view} order {order} request {} tag {}",
        Dotted(prepare.request()),
        Hex(*tag)
    )?;
    Ok(())
}

fn show_commit(rt: &HostRuntime, commit: &Commit) -> Result<(), Stop> {
    let Commit {
        sender,
        view,
        order,
        tag,
        ..
    } = commit;
    println!(rt;
        "2 COMMIT sender {sender} view {view} order {order} request {} tag {}",
        Dotted(commit.request()),
        Hex(*tag)
    )?;
    Ok(())
}

fn show_checkpoint(rt: &HostRuntime, checkpoint: &Checkpoint) -> Result<(), Stop> {
    let Checkpoint {
        sender,
        order,
        digest,
        tag,
        ..
    } = checkpoint;
    println!(rt;
        "3 CHECKPOINT sender {sender} order {order} digest {} tag {}",
        Hex(*digest),
        Hex(*tag)
    )?;
    Ok(())
}

// Its CHECKPOINTs and PREPAREs stand on lines that are indented so far.
fn show_view_change(rt: &HostRuntime, change: &ViewChange, indent: &str) -> Result<(), Stop> {
    let ViewChange {
        sender,
        target,
        previous,
        from,
        low,
        proof,
        entries,
        tag,
        ..
    } = change;
    print!(rt; "4 VIEW-CHANGE sender {sender} target {target} previous {previous} from {from} ")?;
    println!(rt;
        "low {low} proof {} entries {} tag {}",
        proof.len(),
        entries.len(),
        Hex(*tag)
    )?;
    for checkpoint in proof.iter() {
        print!(rt; "{indent}")?;
        show_checkpoint(rt, &checkpoint)?;
    }
    show_prepares(rt, entries, indent)
}

fn show_prepares(rt: &HostRuntime, prepares: &Prepares, indent: &str) -> Result<(), Stop> {
    for prepare in prepares.iter() {
        print!(rt; "{indent}")?;
        show_prepare(rt, &prepare)?;
    }
    Ok(())
}

fn show_new_view(rt: &HostRuntime, new_view: &NewView) -> Result<(), Stop> {
    let NewView {
        view,
        changes,
        prepares,
        tag,
        ..
    } = new_view;
    println!(rt;
        "5 NEW-VIEW view {view} changes {} prepares {} tag {}",
        changes.len(),
        prepares.len(),
        Hex(*tag)
    )?;
    for change in changes.iter() {
        print!(rt; "{HELD}")?;
        show_view_change(rt, &change, HELD_BELOW)?;
    }
    show_prepares(rt, prepares, HELD)
}
