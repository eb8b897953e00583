// What a request's code asks of the glyph register.
ghost use Rattle.std.specs.Prelude.{◌≡◌};
ghost use Rattle.registers.specs.Operations.{operation_or_failure};

use service::Failure;

/// One of the two numbers that a glyph has.
#[derive(Clone, Copy, PartialEq, Eq, Debug)]
pub enum Measure {
    /// How far the pen moves.
    Advance,
    /// How far right of its origin the glyph begins.
    Bearing,
}

/// Setting or reading one of them.
#[derive(Clone, Copy, PartialEq, Eq, Debug)]
pub enum Operation {
    Set(Measure),
    Read(Measure),
}

/// The operation that a code stands for, if it stands for one.
impl TryFrom<u32> for Operation {
    type Error = Failure;

    ghost try_from_gives = { λ code answer. answer ≡ operation_or_failure code };

    fn try_from(code: u32) -> Result<Operation, Failure> {
        match code {
            1 => Ok(Operation::Set(Measure::Advance)),
            2 => Ok(Operation::Set(Measure::Bearing)),
            3 => Ok(Operation::Read(Measure::Advance)),
            4 => Ok(Operation::Read(Measure::Bearing)),
            _ => Err(Failure::NotTaken),
        }
    }
}
