//! Why bytes are no module.
ghost use Rattle.std.specs.Prelude.{◌≡◌};

use pb_base::{Fault, OrMemory};
use std::fmt;

/// What is wrong with the bytes.
#[derive(Clone, Copy, Debug, PartialEq, Eq)]
pub enum ModuleRule {
    /// B01: the first bytes aren't the format's mark.
    Mark,
    /// B02: the version is neither 1 nor 2.
    Version,
    /// B03: the bytes end inside a field.
    Truncated,
    /// B04: there is no instruction of this code in the version.
    UnknownOp,
    /// B05: a field is out of its limit.
    Limit,
    /// B06: bytes stand behind the module.
    Trailing,
    /// B07: there is no such initial instance.
    Initial,
}

impl ModuleRule {
    ghost use Rattle.pb_bytecode.specs.RuleNumber.{rule_number};

    /// The rule's number, as `B01`.
    pub fn number(self) -> &'static str
        ensures { result.now ≡ rule_number self }
    {
        match self {
            ModuleRule::Mark => "B01",
            ModuleRule::Version => "B02",
            ModuleRule::Truncated => "B03",
            ModuleRule::UnknownOp => "B04",
            ModuleRule::Limit => "B05",
            ModuleRule::Trailing => "B06",
            ModuleRule::Initial => "B07",
        }
    }
}

impl fmt::Display for ModuleRule {
    ghost use Rattle.std.specs.Prelude.{Some};
    ghost use Rattle.pb_bytecode.specs.RuleNumber.{rule_number};

    ghost output = { λ rule. Some (rule_number rule) };

    fn fmt<W: fmt::Write>(&self, f: &mut fmt::Formatter<W>) -> fmt::Result {
        f.write_str(self.number())
    }
}

/// A rule that is broken, and how many bytes are left from the beginning of its field on.
#[derive(Clone, Copy)]
pub(crate) struct FieldFault {
    pub(crate) rule: ModuleRule,
    pub(crate) left: usize,
}

impl Fault for FieldFault {}

/// Why a field whose reading takes memory could not be read.
pub(crate) type ReadError = OrMemory<FieldFault>;

/// The first fault from the left, and the byte at which its field begins, counted from 0. Where the
/// input ends inside a field it is the input's length, and where the mark is wrong the first byte
/// that differs. It shows as `B05 byte 17`.
#[derive(Clone, Copy, Debug, PartialEq, Eq)]
pub struct ModuleFault {
    pub rule: ModuleRule,
    pub byte: usize,
}

impl Fault for ModuleFault {}

/// Why bytes could not be read as a module: a fault, or memory was refused.
pub type ModuleError = OrMemory<ModuleFault>;

impl fmt::Display for ModuleFault {
    ghost use Rattle.std.specs.Prelude.{Some};
    ghost use Rattle.pb_bytecode.specs.FaultText.{fault_text};

    ghost output = { λ fault. Some (fault_text fault) };

    fn fmt<W: fmt::Write>(&self, f: &mut fmt::Formatter<W>) -> fmt::Result {
        let ModuleFault { rule, byte } = self;
        write!(f, "{rule} byte {byte}")
    }
}
