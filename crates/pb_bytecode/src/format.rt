//! The codes of instructions, and what follows each of them.
ghost use Rattle.std.specs.Prelude.{◌≡◌};
ghost use Rattle.pb_bytecode.specs.Formats.{format_of};

use pb_bytecode_program::{Arithmetic, Comparison, Equality, Junction, Leaf, Op, Version};

/// What follows an instruction's code.
#[derive(Clone, Copy)]
pub enum Format {
    /// Nothing: the code is the whole instruction.
    Plain(Op),
    /// A number of 64 bits.
    Int,
    /// 0 or 1.
    Bool,
    /// A sort and an enumerator's place.
    Enumerator,
    /// A slot.
    Get,
    /// A target.
    Jump,
    /// A target, for a jump on this condition.
    JumpIf(bool),
    /// Two bounds and a target.
    InRange,
    /// A slot.
    Loop,
    /// An equation.
    Call,
    /// A slot, two bounds and a target.
    SlotInRange,
}

/// The code of `Op::SlotInRange`, which only version 2 has.
const SLOT_IN_RANGE: u8 = 0x25;

/// The format behind each other code, from 0 on.
static FORMATS: [Format; 37] = [
    Format::Plain(Op::End),
    Format::Int,
    Format::Bool,
    Format::Enumerator,
    Format::Get,
    Format::Plain(Op::Pop),
    Format::Plain(Op::Arithmetic(Arithmetic::Add)),
    Format::Plain(Op::Arithmetic(Arithmetic::Sub)),
    Format::Plain(Op::Arithmetic(Arithmetic::Mul)),
    Format::Plain(Op::Negate),
    Format::Plain(Op::Arithmetic(Arithmetic::Div)),
    Format::Plain(Op::Arithmetic(Arithmetic::Mod)),
    Format::Plain(Op::Arithmetic(Arithmetic::Min)),
    Format::Plain(Op::Arithmetic(Arithmetic::Max)),
    Format::Plain(Op::Absolute),
    Format::Plain(Op::Compare(Comparison::Less)),
    Format::Plain(Op::Compare(Comparison::LessOrEqual)),
    Format::Plain(Op::Compare(Comparison::Greater)),
    Format::Plain(Op::Compare(Comparison::GreaterOrEqual)),
    Format::Plain(Op::Equality(Equality::Equal)),
    Format::Plain(Op::Equality(Equality::NotEqual)),
    Format::Plain(Op::Not),
    Format::Plain(Op::Logic(Junction::Conjunction)),
    Format::Plain(Op::Logic(Junction::Disjunction)),
    Format::Jump,
    Format::JumpIf(true),
    Format::JumpIf(false),
    Format::InRange,
    Format::Loop,
    Format::Plain(Op::Next),
    Format::Plain(Op::Open(Junction::Conjunction)),
    Format::Plain(Op::Open(Junction::Disjunction)),
    Format::Plain(Op::Close),
    Format::Plain(Op::Emit(Leaf::Yes)),
    Format::Plain(Op::Emit(Leaf::No)),
    Format::Plain(Op::Emit(Leaf::Cut)),
    Format::Call,
];

/// The format behind a code, if the version has that code (B04).
pub fn format_of(version: Version, code: u8) -> Option<Format>
    ensures { result ≡ format_of version code }
{
    if code == SLOT_IN_RANGE {
        match version {
            Version::One => None,
            Version::Two => Some(Format::SlotInRange),
        }
    } else if (code as usize) < FORMATS.len() {
        Some(FORMATS[code as usize])
    } else {
        None
    }
}
