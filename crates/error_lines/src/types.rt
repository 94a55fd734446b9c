//! The names of types and operations.

ghost use Rattle.std.specs.Prelude.{◌≡◌};
ghost use Rattle.error_lines.specs.Names.{operation_name};
ghost use Rattle.tokens.specs.Grammar.{type_word};

use vocabulary::{BasicType, Operation};

/// The name of a type, as scripts have it.
pub(crate) fn type_name(basic: BasicType) -> &'static str
    ensures { result.now ≡ type_word basic }
{
    match basic {
        BasicType::Int8 => "int8",
        BasicType::Int16 => "int16",
        BasicType::Int32 => "int32",
        BasicType::Int64 => "int64",
        BasicType::Uint8 => "uint8",
        BasicType::Uint16 => "uint16",
        BasicType::Uint32 => "uint32",
        BasicType::Uint64 => "uint64",
        BasicType::Byte => "byte",
        BasicType::Float32 => "float32",
        BasicType::Float64 => "float64",
    }
}

/// The name of an operation, as scripts have it.
pub(crate) fn operation_name(operation: Operation) -> &'static str
    ensures { result.now ≡ operation_name operation }
{
    match operation {
        Operation::Max => "max",
        Operation::Min => "min",
        Operation::Sum => "sum",
        Operation::Prod => "prod",
        Operation::Land => "land",
        Operation::Lor => "lor",
        Operation::Lxor => "lxor",
        Operation::Band => "band",
        Operation::Bor => "bor",
        Operation::Bxor => "bxor",
        Operation::Affine => "affine",
    }
}
