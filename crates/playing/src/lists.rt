// Requests and lists in words.
ghost use Rattle.std.specs.Iterator.{IsFinite};

use super::stops::Stop;
use std::fmt::{self, Display};
use terms::Request;

/// A request as its five numbers, with points between them.
#[derive(Clone, Copy, PartialEq, Eq, Debug)]
pub struct Dotted(pub Request);

impl fmt::Display for Dotted {
    fn fmt<W: fmt::Write>(&self, f: &mut fmt::Formatter<W>) -> fmt::Result {
        let Request {
            client,
            sequence,
            code,
            key,
            value,
        } = self.0;
        write!(f, "{client}.{sequence}.{code}.{key}.{value}")
    }
}

/// Prints items with a mark between each two, or a dash where there are none.
pub fn show_list<T: Display + Drop, I: Iterator<Item = T> + Drop>(
    rt: &HostRuntime,
    items: I,
    mark: &str,
) -> Result<(), Stop>
    requires can { I.can_next items }
    requires ends { IsFinite (I.remaining items) }
{
    let mut is_empty = true;
    for item in items {
        print!(rt; "{}{item}", if is_empty { "" } else { mark })?;
        is_empty = false;
    }
    if is_empty {
        print!(rt; "-")?;
    }
    Ok(())
}
