// What a case asks for, and that it is refused.
use std::error::Error;
use std::fmt;

// The operations, by their numbers from 1 on.
#[derive(Clone, Copy, Debug, PartialEq, Eq)]
pub enum Operation {
    Plus,
    Times,
    Multiples,
    Scaled,
    Masked,
    Combination,
    Nonzero,
    Zero,
    One,
    Y,
    Product,
    Excess,
    TermTimes,
    TermMultiples,
    Chain,
    Differs,
}

// A case that has no result.
#[derive(Clone, Copy, Debug, PartialEq, Eq)]
pub struct Refused;

impl TryFrom<u8> for Operation {
    type Error = Refused;

    fn try_from(number: u8) -> Result<Self, Refused> {
        Ok(match number {
            1 => Operation::Plus,
            2 => Operation::Times,
            3 => Operation::Multiples,
            4 => Operation::Scaled,
            5 => Operation::Masked,
            6 => Operation::Combination,
            7 => Operation::Nonzero,
            8 => Operation::Zero,
            9 => Operation::One,
            10 => Operation::Y,
            11 => Operation::Product,
            12 => Operation::Excess,
            13 => Operation::TermTimes,
            14 => Operation::TermMultiples,
            15 => Operation::Chain,
            16 => Operation::Differs,
            _ => return Err(Refused),
        })
    }
}

impl fmt::Display for Operation {
    fn fmt<W: fmt::Write>(&self, f: &mut fmt::Formatter<W>) -> fmt::Result {
        f.write_str(match self {
            Operation::Plus => "plus",
            Operation::Times | Operation::TermTimes => "times",
            Operation::Multiples | Operation::TermMultiples => "multiples",
            Operation::Scaled => "scaled",
            Operation::Masked => "masked",
            Operation::Combination => "combination",
            Operation::Nonzero => "nonzero",
            Operation::Zero => "zero",
            Operation::One => "one",
            Operation::Y => "y",
            Operation::Product => "product",
            Operation::Excess => "excess",
            Operation::Chain => "chain",
            Operation::Differs => "differs",
        })
    }
}

impl fmt::Display for Refused {
    fn fmt<W: fmt::Write>(&self, f: &mut fmt::Formatter<W>) -> fmt::Result {
        f.write_str("refused")
    }
}

impl Error for Refused {}
