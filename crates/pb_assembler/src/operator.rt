//! The instructions of operators.

ghost use Rattle.std.specs.Prelude.{◌≡◌};
ghost use Rattle.pb_text_meaning.specs.Erase.{of_arithmetic, of_comparison};
ghost use Rattle.pb_assembler_scheme.specs.Pieces.{Piece};
ghost use Rattle.pb_assembler_scheme.specs.Scheme.{binary_piece, in_order};

use pb_bytecode_program::{Arithmetic, Comparison, Equality, Op};

/// A comparison's instruction, behind both operands.
pub(crate) fn comparison_op(comparison: pb_text_tree::Comparison) -> Op
    ensures { (x y : Piece) → in_order result x y
        ≡ binary_piece (of_comparison comparison) x y }
{
    match comparison {
        pb_text_tree::Comparison::Equal => Op::Equality(Equality::Equal),
        pb_text_tree::Comparison::NotEqual => Op::Equality(Equality::NotEqual),
        pb_text_tree::Comparison::Less => Op::Compare(Comparison::Less),
        pb_text_tree::Comparison::LessEqual => Op::Compare(Comparison::LessOrEqual),
        pb_text_tree::Comparison::Greater => Op::Compare(Comparison::Greater),
        pb_text_tree::Comparison::GreaterEqual => Op::Compare(Comparison::GreaterOrEqual),
    }
}

/// An arithmetic operator's instruction, behind both operands.
pub(crate) fn arithmetic_op(operator: pb_text_tree::Arithmetic) -> Op
    ensures { (x y : Piece) → in_order result x y
        ≡ binary_piece (of_arithmetic operator) x y }
{
    match operator {
        pb_text_tree::Arithmetic::Plus => Op::Arithmetic(Arithmetic::Add),
        pb_text_tree::Arithmetic::Minus => Op::Arithmetic(Arithmetic::Sub),
        pb_text_tree::Arithmetic::Times => Op::Arithmetic(Arithmetic::Mul),
        pb_text_tree::Arithmetic::Div => Op::Arithmetic(Arithmetic::Div),
        pb_text_tree::Arithmetic::Mod => Op::Arithmetic(Arithmetic::Mod),
    }
}
