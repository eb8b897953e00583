// View numbers and order numbers, which never stand for one another, and the one number in which they meet.
ghost use Rattle.std.specs.Prelude.{◌≡◌};
ghost use Rattle.terms.specs.Pairs.{paired, view_part, order_part, PairsPart, PartsPair, PairsAscend};

use std::fmt;

/// A view's number.
#[derive(Clone, Copy, PartialEq, Eq, PartialOrd, Ord, Debug, Default)]
pub struct View(pub u32);

/// An order number: the place of a request in the agreed list.
#[derive(Clone, Copy, PartialEq, Eq, PartialOrd, Ord, Debug, Default)]
pub struct Order(pub u32);

impl fmt::Display for View {
    fn fmt<W: fmt::Write>(&self, f: &mut fmt::Formatter<W>) -> fmt::Result {
        write!(f, "{}", self.0)
    }
}

impl fmt::Display for Order {
    fn fmt<W: fmt::Write>(&self, f: &mut fmt::Formatter<W>) -> fmt::Result {
        write!(f, "{}", self.0)
    }
}

// A view has this many order numbers, 0 among them.
const ORDERS_TO_A_VIEW: u64 = 1 << 32;

/// The pair [view|order]: the view in the upper 32 bits, the order in the lower. Both can be had back.
pub fn pair(view: View, order: Order) -> u64
    ensures value { result ≡ paired view.0 order.0 }
    ensures apart { PairsPart }
{
    u64::from(view.0) * ORDERS_TO_A_VIEW + u64::from(order.0)
}

/// The view of a pair. Every number of 64 bits is the pair of its view and its order.
pub fn pair_view(pair: u64) -> View
    ensures value { result.0 ≡ view_part pair }
    ensures joined { PartsPair }
{
    View((pair / ORDERS_TO_A_VIEW) as u32)
}

/// The order of a pair. Pairs ascend by view first, and by order within a view.
pub fn pair_order(pair: u64) -> Order
    ensures value { result.0 ≡ order_part pair }
    ensures ascends { PairsAscend }
{
    Order((pair % ORDERS_TO_A_VIEW) as u32)
}
