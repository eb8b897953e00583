// The two kinds of certificates.
ghost use Rattle.std.specs.Prelude.{◌≡◌};
ghost use Rattle.counter.specs.Certificates.{allows, old_tagged};
ghost use Rattle.counter.specs.Kinds.{kind_number};

/// What a certificate says of the value that the counter had before.
#[derive(Clone, Copy, PartialEq, Eq, Debug)]
pub enum Kind {
    /// The counter went on from the old value, which is tagged too. It may stay where it is.
    Continuing = 1,
    /// The counter rose to the new value, which stands for itself: no other independent certificate has it.
    Independent = 2,
}

impl Kind {
    /// The kind's number in a statement.
    pub fn number(self) -> u32
        ensures { result ≡ kind_number self }
    {
        self as u32
    }

    /// Whether a counter at the present value may be set to a new one.
    pub fn allows(self, present: u64, new: u64) -> bool
        ensures { result ≡ allows self present new }
    {
        match self {
            Kind::Continuing => new >= present,
            Kind::Independent => new > present,
        }
    }

    /// The old value that is tagged where the counter stands at the present one.
    pub fn old_tagged(self, present: u64) -> u64
        ensures { result ≡ old_tagged self present }
    {
        match self {
            Kind::Continuing => present,
            Kind::Independent => 0,
        }
    }
}
