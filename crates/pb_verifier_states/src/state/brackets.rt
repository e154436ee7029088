//! Brackets and roots of abstract states.

ghost use Rattle.std.specs.Prelude.{◌≡◌, ◌+◌, None, Some, [], IfErr, OnErr, OnOk, ℕ, nat_lt, true};
ghost use Rattle.std.specs.Prelude.{if◌then◌else◌};
ghost use Rattle.pb_bytecode_program.specs.Transfer.{Flow, abstract_close, abstract_end};
ghost use Rattle.pb_bytecode_program.specs.Transfer.{abstract_root};
ghost use Rattle.pb_bytecode_program.specs.declared.instruction.Op.TheVariants as op;
ghost use Rattle.pb_verifier_states.specs.NamedRule.{IsNamed};

use crate::rule::AcceptanceRule;
use crate::state::AbstractState;
use pb_base::MAX_BRACKETS;

impl AbstractState {
    /// Counts a leaf or a bracket, a root (V14) where no bracket is open: there may be one.
    pub fn add_root(&mut self) -> Result<(), AcceptanceRule>
        ensures ok { OnOk result ((go : ℕ → Flow)
            → abstract_root self.old.brackets self.old.roots go ≡ go self.new.roots) }
        ensures err { OnErr result ((go : ℕ → Flow)
            → abstract_root self.old.brackets self.old.roots go ≡ None) }
        ensures rule { IfErr result (λ rule. rule ≡ AcceptanceRule.Roots) }
        ensures same { self.new ≡ record self.old { roots = self.new.roots } }
    {
        if self.brackets == 0 {
            if self.roots > 0 {
                return Err(AcceptanceRule::Roots);
            }
            self.roots = 1;
        }
        Ok(())
    }

    /// Whether a bracket may be opened: there may be `MAX_BRACKETS` (V13).
    pub fn may_open_bracket(&self) -> bool
        ensures { result ≡ nat_lt self.now.brackets MAX_BRACKETS }
    {
        usize::from(self.brackets) < MAX_BRACKETS
    }

    pub fn open_bracket(&mut self)
        requires { nat_lt self.old.brackets MAX_BRACKETS ≡ true }
        ensures { self.new ≡ record self.old { brackets = self.old.brackets + 1 } }
    {
        self.brackets += 1;
    }

    /// Closes the innermost bracket, which was opened above the floor (V13).
    pub fn close_bracket(&mut self) -> Result<(), AcceptanceRule>
        ensures ok { OnOk result ((go : ℕ → Flow)
            → abstract_close self.old.brackets_below self.old.brackets go ≡ go self.new.brackets) }
        ensures err { OnErr result ((go : ℕ → Flow)
            → abstract_close self.old.brackets_below self.old.brackets go ≡ None) }
        ensures rule { IfErr result (λ rule. rule ≡ AcceptanceRule.Brackets) }
        ensures same { self.new ≡ record self.old { brackets = self.new.brackets } }
    {
        if self.brackets == 0 || self.brackets <= self.brackets_below {
            return Err(AcceptanceRule::Brackets);
        }
        self.brackets -= 1;
        Ok(())
    }

    /// The end: no loop and no bracket is open, and there is one root.
    pub fn end(&self) -> Result<(), AcceptanceRule>
        ensures ok { OnOk result (abstract_end self.now.loops self.now.brackets self.now.roots
            ≡ Some []) }
        ensures err { OnErr result (abstract_end self.now.loops self.now.brackets self.now.roots
            ≡ None) }
        ensures rule { IfErr result (IsNamed op.End self.now) }
    {
        if !self.loops.is_empty() {
            return Err(AcceptanceRule::LoopStructure);
        }
        if self.brackets != 0 {
            return Err(AcceptanceRule::Brackets);
        }
        if self.roots != 1 {
            return Err(AcceptanceRule::Roots);
        }
        Ok(())
    }
}
