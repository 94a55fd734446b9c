//! The operations of reductions.

ghost use Rattle.std.specs.Prelude.{◌≡◌};
ghost use Rattle.vocabulary.specs.Operations.{is_associative, is_defined, operation_at, operation_code};

use crate::basic_type::BasicType;

/// The operation of a reduction (MPI 3.1, 5.9.2).
#[derive(Clone, Copy, Debug, PartialEq, Eq)]
pub enum Operation {
    /// The greater (MPI_MAX); of floats a NaN, where one is a NaN.
    Max,
    /// The lesser (MPI_MIN); of floats a NaN, where one is a NaN.
    Min,
    /// The sum (MPI_SUM): in two's complement, which wraps; of floats rounded to the nearest.
    Sum,
    /// The product (MPI_PROD): in two's complement, which wraps; of floats rounded to the nearest.
    Prod,
    /// 1 where both are true, else 0; all but 0 is true (MPI_LAND).
    Land,
    /// 1 where one is true, else 0 (MPI_LOR).
    Lor,
    /// 1 where just one is true, else 0 (MPI_LXOR).
    Lxor,
    /// Bit by bit, and (MPI_BAND).
    Band,
    /// Bit by bit, or (MPI_BOR).
    Bor,
    /// Bit by bit, exclusive or (MPI_BXOR).
    Bxor,
    /// Of two maps `x -> a * x + b` modulo 2^32, `a` the high half of a number and `b` the low, the
    /// first and then the second (our own).
    Affine,
}

impl Operation {
    /// The code that stands for this operation in the record of a collective.
    pub fn code(self) -> u8
        ensures { result ≡ operation_code self }
    {
        match self {
            Operation::Max => 1,
            Operation::Min => 2,
            Operation::Sum => 3,
            Operation::Prod => 4,
            Operation::Land => 5,
            Operation::Lor => 6,
            Operation::Lxor => 7,
            Operation::Band => 8,
            Operation::Bor => 9,
            Operation::Bxor => 10,
            Operation::Affine => 11,
        }
    }

    /// The operation that has this code, where there is one.
    pub fn from_code(code: u8) -> Option<Operation>
        ensures { result ≡ operation_at code }
    {
        match code {
            1 => Some(Operation::Max),
            2 => Some(Operation::Min),
            3 => Some(Operation::Sum),
            4 => Some(Operation::Prod),
            5 => Some(Operation::Land),
            6 => Some(Operation::Lor),
            7 => Some(Operation::Lxor),
            8 => Some(Operation::Band),
            9 => Some(Operation::Bor),
            10 => Some(Operation::Bxor),
            11 => Some(Operation::Affine),
            _ => None,
        }
    }

    /// Whether the operation is defined on the type (MPI 3.1, 5.9.2): the logical ones on integers,
    /// those bit by bit on integers and bytes, `Affine` on `Uint64`, and `Max`, `Min`, `Sum` and
    /// `Prod` on integers and floats.
    pub fn is_defined_on(self, basic: BasicType) -> bool
        ensures { result ≡ is_defined self basic }
    {
        match self {
            Operation::Max | Operation::Min | Operation::Sum | Operation::Prod => {
                basic != BasicType::Byte
            }
            Operation::Land | Operation::Lor | Operation::Lxor => basic.is_integer(),
            Operation::Band | Operation::Bor | Operation::Bxor => !basic.is_float(),
            Operation::Affine => basic == BasicType::Uint64,
        }
    }

    /// Whether the operation is associative on the type: each is, but for `Sum` and `Prod` on floats,
    /// which are rounded.
    pub fn is_associative_on(self, basic: BasicType) -> bool
        ensures { result ≡ is_associative self basic }
    {
        match self {
            Operation::Sum | Operation::Prod => !basic.is_float(),
            _ => true,
        }
    }
}
