//! Instructions of the stack machine that computes an instance's and/or tree.

use pb_fixpoint_trees::Junction;

/// An operator on two numbers. The divisor of `Div` and `Mod` is at least 1; the quotient is
/// rounded down and the remainder is not negative.
#[derive(Clone, Copy, PartialEq, Eq)]
pub enum Arithmetic {
    Add,
    Sub,
    Mul,
    Div,
    Mod,
    Min,
    Max,
}

/// An order of two numbers.
#[derive(Clone, Copy, PartialEq, Eq)]
pub enum Comparison {
    Less,
    LessOrEqual,
    Greater,
    GreaterOrEqual,
}

/// Whether two values of one kind are to be equal or different.
#[derive(Clone, Copy, PartialEq, Eq)]
pub enum Equality {
    Equal,
    NotEqual,
}

/// A leaf of a tree other than a call. `Cut` marks a call whose arguments lie outside their
/// carriers; it counts as false, like `No`.
#[derive(Clone, Copy, PartialEq, Eq)]
pub enum Leaf {
    Yes,
    No,
    Cut,
}

/// One instruction. Operands are popped from the operand stack and results are pushed onto it; of
/// two operands the first is the lower one. A target is the place of an instruction, counted from
/// 0. Slots are numbered from 0, the parameters first and then the loop slots.
#[derive(Clone, Copy, PartialEq, Eq)]
pub enum Op {
    /// Ends the run.
    End,
    /// Pushes a number.
    PushInt(i64),
    /// Pushes a truth value.
    PushBool(bool),
    /// Pushes an enumerator.
    PushEnum {
        sort: u8,
        index: u8,
    },
    /// Pushes a slot's value.
    Get {
        slot: u8,
    },
    /// Pops an operand of any kind.
    Pop,
    /// Replaces two numbers by the operator's result.
    Arithmetic(Arithmetic),
    /// Replaces a number by its negative.
    Negate,
    /// Replaces a number by its absolute value.
    Absolute,
    /// Replaces two numbers by whether they stand in the order.
    Compare(Comparison),
    /// Replaces two values of one kind by whether they are equal, or different.
    Equality(Equality),
    /// Negates a truth value.
    Not,
    /// Replaces two truth values by their conjunction or disjunction.
    Logic(Junction),
    /// Jumps.
    Jump {
        target: u16,
    },
    /// Pops a truth value and jumps where it is the condition.
    JumpIf {
        condition: bool,
        target: u16,
    },
    /// Jumps where the number on top lies outside `low` to `high`. The number stays.
    InRange {
        low: i32,
        high: i32,
        target: u16,
    },
    /// Jumps where the slot's number lies outside `low` to `high`.
    SlotInRange {
        slot: u8,
        low: i32,
        high: i32,
        target: u16,
    },
    /// Runs the instructions up to the matching `Next` once for each value of the loop slot's
    /// carrier, in order.
    Loop {
        slot: u8,
    },
    /// Ends the body of a loop.
    Next,
    /// Opens a bracket of the tree.
    Open(Junction),
    /// Closes a bracket of the tree.
    Close,
    /// Writes a leaf of the tree.
    Emit(Leaf),
    /// Pops the arguments of an equation's parameters, the last one on top, and writes that
    /// instance as a leaf.
    Call {
        equation: u8,
    },
}
