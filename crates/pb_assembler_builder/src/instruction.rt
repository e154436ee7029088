//! Instructions of code in the making.

ghost use Rattle.std.specs.Prelude.{◌≡◌};
ghost use Rattle.pb_assembler_builder.specs.Draft.{jump_op};

use pb_bytecode_program::Op;

/// A jump, whose target a label stands for.
#[derive(Clone, Copy, PartialEq, Eq)]
pub enum Jump {
    /// Jumps.
    Always,
    /// Pops a truth value and jumps where it is this one.
    If(bool),
    /// Jumps where the number on top lies outside `low` to `high`. The number stays.
    InRange { low: i32, high: i32 },
    /// Jumps where the slot's number lies outside `low` to `high`.
    SlotInRange { slot: u8, low: i32, high: i32 },
}

impl Jump {
    /// The instruction that jumps to this place.
    pub(crate) fn to(self, target: u16) -> Op
        ensures { result ≡ jump_op self target }
    {
        match self {
            Jump::Always => Op::Jump { target },
            Jump::If(condition) => Op::JumpIf { condition, target },
            Jump::InRange { low, high } => Op::InRange { low, high, target },
            Jump::SlotInRange { slot, low, high } => Op::SlotInRange {
                slot,
                low,
                high,
                target,
            },
        }
    }
}

/// An instruction without a target, or a jump to the label of a number.
#[derive(Clone, Copy)]
pub(crate) enum Instruction {
    Plain(Op),
    Jump { jump: Jump, label: usize },
}
