// The lines: each makes the calls of one edge and says what they answered.
use anyhow::{Context, bail};
use counter::{Counter, Kind, Seat};
use counters::HmacCounter;
use drafts::{NewViewDraft, ViewChangeDraft, write};
use message::{Message, ViewChange};
use registers::GlyphRegister;
use service::Service;
use std::io;
use terms::{
    GroupSize, OUT_BYTES, Order, Refusal, Request, SHORTEST_VIEW_CHANGE, TAG_BYTES, View, pair,
};

/// A group of so many seats: its quorum and fault limit, or its refusal.
pub fn show_group(rt: &HostRuntime, seats: u32) -> io::Result<()> {
    match GroupSize::new(seats) {
        Ok(group) => {
            let quorum = group.quorum();
            let faults = group.fault_limit();
            println!(rt; "{seats} seats: quorum {quorum}, fault limit {faults}")
        }
        Err(refusal) => {
            let number = refusal.number();
            println!(rt; "{seats} seats: refused {number}")
        }
    }
}

/// A view and an order as one number.
pub fn show_pair(rt: &HostRuntime, view: u32, order: u32) -> io::Result<()> {
    let view = View(view);
    let order = Order(order);
    let value = pair(view, order);
    println!(rt; "[{view}|{order}] is {value}")
}

/// A counter that stands at 7 is set to 7 again, by both kinds of certificates.
pub fn show_present_value(rt: &HostRuntime) -> anyhow::Result<()> {
    let seat = Seat::new(3, 0).context("a group of 3 has a seat 0")?;
    let mut counter = HmacCounter::new(seat, &[0; 32]);
    let _ = counter
        .certify(Kind::Independent, 0, 7, b"")
        .context("a fresh counter can be set to 7")?;
    let continuing = counter.certify(Kind::Continuing, 0, 7, b"");
    let independent = counter.certify(Kind::Independent, 0, 7, b"");
    show_certificate(rt, "continuing", continuing)?;
    show_certificate(rt, "independent", independent)?;
    Ok(())
}

fn show_certificate(
    rt: &HostRuntime,
    kind: &str,
    answer: Result<[u8; TAG_BYTES], Refusal>,
) -> io::Result<()> {
    match answer {
        Ok(_) => println!(rt; "{kind} at the present value: passes"),
        Err(refusal) => {
            let number = refusal.number();
            println!(rt; "{kind} at the present value: refused {number}")
        }
    }
}

/// An advance that is set in an empty glyph register.
pub fn show_advance(rt: &HostRuntime, advance: u32) -> anyhow::Result<()> {
    let mut glyphs = GlyphRegister::new(rt.alloc())?;
    let (status, value) = glyphs.apply(Request {
        client: 0,
        sequence: 1,
        code: 1,
        key: 65,
        value: advance,
    });
    println!(rt; "advance {advance}: status {status} value {value}")?;
    Ok(())
}

/// The NEW-VIEW for view 1 of a group of three in which nothing was proposed or proved.
pub fn show_bare_new_view(rt: &HostRuntime) -> anyhow::Result<()> {
    let mut mail = [0; 2 * SHORTEST_VIEW_CHANGE];
    let (first, second) = mail.split_at_mut(SHORTEST_VIEW_CHANGE);
    write_bare_view_change(0, first)?;
    write_bare_view_change(1, second)?;
    let len = bare_new_view_len(&mail)?;
    println!(rt; "a NEW-VIEW of 3 seats with nothing proposed or proved: {len} bytes")?;
    Ok(())
}

// Writes the VIEW-CHANGE for view 1 of a replica that knows of nothing.
fn write_bare_view_change(sender: u32, out: &mut [u8]) -> anyhow::Result<()> {
    let change = ViewChangeDraft {
        sender,
        target: View(1),
        previous: 0,
        from: View(0),
        low: Order(0),
        proof: &[],
        entries: &[],
    };
    let _ = write(&change, &[0; TAG_BYTES], out).context("a bare VIEW-CHANGE has this room")?;
    Ok(())
}

// How many bytes the NEW-VIEW has that shows two such VIEW-CHANGEs.
fn bare_new_view_len(mail: &[u8]) -> anyhow::Result<usize> {
    let (first, second) = mail
        .split_at_checked(SHORTEST_VIEW_CHANGE)
        .context("two VIEW-CHANGEs")?;
    let new_view = NewViewDraft {
        view: View(1),
        changes: &[Some(view_change(first)?), Some(view_change(second)?)],
        prepares: &[],
    };
    let mut out = [0; OUT_BYTES];
    write(&new_view, &[0; TAG_BYTES], &mut out).context("a NEW-VIEW has this room")
}

fn view_change(bytes: &[u8]) -> anyhow::Result<ViewChange<'_>> {
    match Message::read(bytes)? {
        Message::ViewChange(change) => Ok(change),
        _ => bail!("not a VIEW-CHANGE"),
    }
}
