// What an ordered request costs, beside what its certificates and checks cost alone.
use super::certificates::Certificates;
use super::digests::Digests;
use super::groups::OrderingGroup;
use super::kinds::CounterKind;
use super::rounds::{ROUND, Rounds};
use super::stops::Stop;
use super::times::Times;
use counter::{Counter, Seat};
use counters::{CmacCounter, HmacCounter};
use std::alloc::Global;
use std::fmt;
use terms::GroupSize;
use texts::Hex;

// The medians of what a request costs, in nanoseconds.
#[derive(Clone, Copy, PartialEq, Eq, Debug)]
struct Costs {
    request: u64,
    certificates: u64,
    digests: u64,
}

impl fmt::Display for Costs {
    fn fmt<W: fmt::Write>(&self, f: &mut fmt::Formatter<W>) -> fmt::Result {
        let Costs {
            request,
            certificates,
            digests,
        } = *self;
        let rate = 1_000_000_000_u64.checked_div(request).unwrap_or(0);
        let (whole, rest) = ratio(request, certificates);
        write!(f, "{rate} requests/s, {request} ns each, ")?;
        write!(
            f,
            "{certificates} ns of certificates and checks (ratio {whole}.{rest:02}), "
        )?;
        let (whole, rest) = ratio(request, certificates.saturating_add(digests));
        write!(
            f,
            "{digests} ns of digests (ratio to both {whole}.{rest:02})"
        )
    }
}

// How often one number holds another, and the hundredths beside.
fn ratio(number: u64, other: u64) -> (u64, u64) {
    let hundredths = number.saturating_mul(100).checked_div(other).unwrap_or(0);
    (hundredths / 100, hundredths % 100)
}

// A group, its certificates and checks alone, and the digests of its marks alone.
#[derive(Drop)]
struct Works<C: Counter> {
    group: OrderingGroup<C>,
    certificates: Certificates<C>,
    digests: Digests,
}

impl<C: Counter + Drop> Works<C> {
    // The works of a group with a full register, for counters that are made of its seats.
    fn new<F: Fn(Seat) -> C>(heap: Global, size: GroupSize, counter: F) -> Result<Works<C>, Stop>
        requires { F.IsAlwaysCallable counter }
    {
        let mut group = OrderingGroup::new(heap, seated(heap, size, &counter)?)?;
        group.fill()?;
        let state = group.written_state()?.to_vec(heap)?;
        Ok(Works {
            group,
            certificates: Certificates::new(seated(heap, size, &counter)?),
            digests: Digests::new(state, size.seats()),
        })
    }

    // Lets the works take turns for so many rounds.
    fn time(&mut self, rt: &HostRuntime, rounds: u32) -> Result<Costs, Stop> {
        let mut requests = Times::new(rt.alloc());
        let mut certificates = Times::new(rt.alloc());
        let mut digests = Times::new(rt.alloc());
        for _ in 0..rounds {
            requests.take(rt, &mut self.group)?;
            certificates.take(rt, &mut self.certificates)?;
            digests.take(rt, &mut self.digests)?;
        }
        Ok(Costs {
            request: requests.median() / u64::from(ROUND),
            certificates: certificates.median() / u64::from(ROUND),
            digests: digests.median() / u64::from(ROUND),
        })
    }

    // Lets each of the two do a round, and prints how many certificates and checks it had, and the last tag.
    fn show(&mut self, rt: &HostRuntime) -> Result<(), Stop> {
        self.group.round()?;
        self.certificates.round()?;
        let (tags, alone) = (self.group.tags(), self.certificates.tags());
        let (last, last_alone) = (
            Hex(self.group.last_tag()),
            Hex(self.certificates.last_tag()),
        );
        println!(rt; "{ROUND} requests with {tags} certificates and checks, at last {last}")?;
        println!(rt; "{alone} certificates and checks alone, at last {last_alone}")?;
        Ok(())
    }
}

// The counters of all seats of a group.
fn seated<C: Counter + Drop, F: Fn(Seat) -> C>(
    heap: Global,
    size: GroupSize,
    counter: &F,
) -> Result<Vec<C>, Stop>
    requires { F.IsAlwaysCallable counter.now }
{
    let mut counters = Vec::new(heap);
    for number in 0..size.seats() {
        counters.push(counter(Seat::new(size.seats(), number)?))?;
    }
    Ok(counters)
}

fn hmac_works(heap: Global, size: GroupSize) -> Result<Works<HmacCounter>, Stop> {
    Works::new(heap, size, |seat| HmacCounter::new(seat, &[7; 32]))
}

fn cmac_works(heap: Global, size: GroupSize) -> Result<Works<CmacCounter>, Stop> {
    Works::new(heap, size, |seat| CmacCounter::new(seat, &[7; 16]))
}

/// Orders requests in rounds, with rounds of their certificates and checks and of the marks' digests between, and
/// prints what a request costs.
pub fn time_requests(
    rt: &HostRuntime,
    kind: CounterKind,
    seats: u32,
    count: u32,
) -> Result<(), Stop> {
    let size = GroupSize::new(seats)?;
    let rounds = count / ROUND;
    let requests = count - count % ROUND;
    let costs = match kind {
        CounterKind::Hmac => hmac_works(rt.alloc(), size)?.time(rt, rounds)?,
        CounterKind::Cmac => cmac_works(rt.alloc(), size)?.time(rt, rounds)?,
    };
    println!(rt; "{kind}, {seats} seats, {requests} requests: {costs}")?;
    Ok(())
}

/// Orders a round of requests, and prints what does not depend on time.
pub fn show_requests(rt: &HostRuntime, kind: CounterKind, seats: u32) -> Result<(), Stop> {
    let size = GroupSize::new(seats)?;
    println!(rt; "{kind}, {seats} seats:")?;
    match kind {
        CounterKind::Hmac => hmac_works(rt.alloc(), size)?.show(rt),
        CounterKind::Cmac => cmac_works(rt.alloc(), size)?.show(rt),
    }
}
