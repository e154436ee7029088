//! Sequences of instructions that occur often: a slot's value, an operator on it and a constant,
//! and a jump by what comes out. The instruction that mostly comes next is tried first, which takes
//! less time than the table of all instructions, whose jumps the processor often mispredicts.
//! Execution can also begin within a sequence, since each instruction is looked at where execution
//! is.
ghost use Rattle.std.specs.Prelude.{◌≡◌, ◌-◌, ℕ, List};
ghost use Rattle.pb_bytecode_program.specs.Machine.{Program};
ghost use Rattle.pb_fixpoint_trees.specs.declared.Token.{Token};
ghost use Rattle.pb_machine.specs.Output.{CallsOf};
ghost use Rattle.pb_machine.specs.Underway.{IsRunning, IsUnderway, IsUnderwayOrEnded};
ghost use Rattle.pb_machine.specs.Underway.{StaysUnderway};

use crate::code::Code;
use crate::machine::Machine;
use crate::registers::Registers;
use pb_bytecode_program::Op;
use pb_sorts::Layout;

impl Machine {
    /// Executes the negation that comes next, if one does.
    #[inline(always)]
    fn try_not(&mut self, registers: &mut Registers, code: &Code<'_>)
        requires { IsRunning code.now.instructions.now self.old registers.old }
        ensures { StaysUnderway code.now.instructions.now self.old registers.old self.new
            registers.new }
    {
        if let Op::Not = code.instruction(registers.place) {
            self.not(registers);
        }
    }

    /// Executes the conditional jump that comes next, if one does.
    #[inline(always)]
    fn try_jump(&mut self, registers: &mut Registers, code: &Code<'_>)
        requires { IsRunning code.now.instructions.now self.old registers.old }
        ensures { StaysUnderway code.now.instructions.now self.old registers.old self.new
            registers.new }
    {
        if let Op::JumpIf { condition, target } = code.instruction(registers.place) {
            self.jump_if(registers, *condition, *target);
        }
    }

    /// Executes what mostly comes after a comparison: a negation, or none, and a jump.
    #[inline(always)]
    fn try_branch(&mut self, registers: &mut Registers, code: &Code<'_>)
        requires { IsRunning code.now.instructions.now self.old registers.old }
        ensures { StaysUnderway code.now.instructions.now self.old registers.old self.new
            registers.new }
    {
        self.try_not(registers, code);
        self.try_jump(registers, code);
    }

    /// Executes the operator that comes next, if one does, and after a comparison the jump by it.
    #[inline(always)]
    fn try_operator(&mut self, registers: &mut Registers, code: &Code<'_>)
        requires { IsRunning code.now.instructions.now self.old registers.old }
        ensures { StaysUnderway code.now.instructions.now self.old registers.old self.new
            registers.new }
    {
        let op = code.instruction(registers.place);
        if let Op::Arithmetic(operator) = op {
            self.arithmetic(registers, *operator);
        } else if let Op::Equality(wanted) = op {
            self.equate(registers, *wanted);
            self.try_branch(registers, code);
        } else if let Op::Compare(order) = op {
            self.compare(registers, *order);
            self.try_branch(registers, code);
        }
    }

    /// Executes the constant that comes next, if one does, and the operator on it.
    #[inline(always)]
    fn try_constant(&mut self, registers: &mut Registers, code: &Code<'_>)
        requires { IsRunning code.now.instructions.now self.old registers.old }
        ensures { StaysUnderway code.now.instructions.now self.old registers.old self.new
            registers.new }
    {
        if let Op::PushInt(value) = code.instruction(registers.place) {
            self.push_int(registers, *value);
            self.try_operator(registers, code);
        }
    }

    /// Executes the next instruction, and what mostly comes after it. Answers whether the run goes
    /// on.
    #[inline(always)]
    pub(crate) fn advance(
        &mut self,
        registers: &mut Registers,
        layout: &Layout,
        code: &Code<'_>,
    ) -> bool
        requires { (p : Program) × (n : ℕ) × (tokens : List Token) × CallsOf p layout.now
            × (p.loops ≡ code.now.loops.now)
            × IsUnderway p code.now.instructions.now self.old registers.old n tokens }
        ensures { (p : Program) (n : ℕ) (tokens : List Token) → CallsOf p layout.now
            → p.loops ≡ code.now.loops.now
            → IsUnderway p code.now.instructions.now self.old registers.old n tokens
            → IsUnderwayOrEnded p code.now.instructions.now self.new registers.new (n - 1) tokens
            result }
    {
        let op = code.instruction(registers.place);
        if let Op::PushInt(value) = op {
            self.push_int(registers, *value);
            self.try_operator(registers, code);
            true
        } else if let Op::Get { slot } = op {
            self.get(registers, *slot);
            self.try_constant(registers, code);
            true
        } else {
            self.execute(registers, layout, code.loops, op)
        }
    }
}
