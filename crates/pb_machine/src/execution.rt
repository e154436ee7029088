//! Runs: one instruction after another, up to END.
ghost use Rattle.std.specs.Prelude.{◌≡◌, ◌<◌, ◌++◌, IfOk, List, Some, ℤ, slice_get, take};
ghost use Rattle.std.specs.Prelude.{true, vec_len};
ghost use Rattle.arrayvec.specs.ArrayVec.{array_vec_len};
ghost use Rattle.pb_sorts.specs.Instance.{instances};
ghost use Rattle.pb_bytecode_program.specs.Machine.{Program, start};
ghost use Rattle.pb_bytecode_program.specs.Safety.{AreArguments, arguments as tagged_arguments};
ghost use Rattle.pb_bytecode_program.specs.declared.instruction.Op.TheVariants as op;
ghost use Rattle.pb_sorts.specs.Layout.{carriers_of, count_of};
ghost use Rattle.pb_machine.specs.Mirror.{IsReady, Executes, Mirrors};
ghost use Rattle.pb_machine.specs.Output.{CallsOf, CanRun, IsOutput};

use crate::code::Code;
use crate::instance_values::write_values;
use crate::machine::Machine;
use crate::registers::Registers;
use crate::results::{Bounds, truth};
use arrayvec::ArrayVec;
use pb_base::MAX_OPERANDS;
use pb_bytecode_program::Op;
use pb_sorts::{Carrier, Layout};
use std::alloc::AllocError;

/// Makes all places for operands be there.
fn fill(operands: &mut ArrayVec<i64, MAX_OPERANDS>)
    ensures { array_vec_len operands.new ≡ MAX_OPERANDS }
{
    if !operands.is_full() {
        *operands = ArrayVec::from([0; MAX_OPERANDS]);
    }
}

/// Makes there be so many slots, the first of which stay as they are. Most runs have as many as the
/// one before, which is seen without a call.
#[inline(always)]
fn resize(slots: &mut Vec<i64>, count: usize) -> Result<(), AllocError>
    ensures count { IfOk result (λ _. vec_len slots.new ≡ count) }
    ensures first { IfOk result (λ _. (more : List ℤ)
        × (slots.new.items ≡ take count slots.old.items ++ more)) }
{
    if slots.len() != count {
        slots.resize(count, 0)?;
    }
    Ok(())
}

impl Machine {
    /// Takes an operand away.
    fn discard(&self, registers: &mut Registers)
        requires { (p : Program) × IsReady p self.now registers.old op.Pop }
        ensures { (p : Program) → Executes p op.Pop self.now registers.old self.now registers.new
            true }
    {
        self.pop(registers);
        registers.go_on();
    }

    /// Pushes the value of a slot.
    #[inline(always)]
    pub(crate) fn get(&mut self, registers: &mut Registers, slot: u8)
        requires { (p : Program) × IsReady p self.old registers.old (op.Get slot) }
        ensures { (p : Program) → Executes p (op.Get slot) self.old registers.old self.new
            registers.new true }
    {
        self.push(registers, self.slot(slot as usize));
    }

    #[inline(always)]
    pub(crate) fn push_int(&mut self, registers: &mut Registers, value: i64)
        requires { (p : Program) × IsReady p self.old registers.old (op.PushInt value) }
        ensures { (p : Program) → Executes p (op.PushInt value) self.old registers.old self.new
            registers.new true }
    {
        self.push(registers, value);
    }

    fn push_bool(&mut self, registers: &mut Registers, value: bool)
        requires { (p : Program) × IsReady p self.old registers.old (op.PushBool value) }
        ensures { (p : Program) → Executes p (op.PushBool value) self.old registers.old self.new
            registers.new true }
    {
        self.push(registers, truth(value));
    }

    fn push_enum(&mut self, registers: &mut Registers, sort: u8, index: u8)
        requires { (p : Program) × IsReady p self.old registers.old (op.PushEnum sort index) }
        ensures { (p : Program) → Executes p (op.PushEnum sort index) self.old registers.old
            self.new registers.new true }
    {
        self.push(registers, index as i64);
    }

    /// Executes one instruction. Answers whether the run goes on.
    pub(crate) fn execute(
        &mut self,
        registers: &mut Registers,
        layout: &Layout,
        loops: &[Carrier],
        op: &Op,
    ) -> bool
        requires { (p : Program) × CallsOf p layout.now × (p.loops ≡ loops.now)
            × IsReady p self.old registers.old op.now }
        ensures { (p : Program) → CallsOf p layout.now → p.loops ≡ loops.now
            → Executes p op.now self.old registers.old self.new registers.new result }
    {
        match op {
            Op::End => return false,
            Op::PushInt(value) => self.push_int(registers, *value),
            Op::PushBool(value) => self.push_bool(registers, *value),
            Op::PushEnum { sort, index } => self.push_enum(registers, *sort, *index),
            Op::Get { slot } => self.get(registers, *slot),
            Op::Pop => self.discard(registers),
            Op::Arithmetic(operator) => self.arithmetic(registers, *operator),
            Op::Negate => self.negate(registers),
            Op::Absolute => self.absolute(registers),
            Op::Compare(order) => self.compare(registers, *order),
            Op::Equality(wanted) => self.equate(registers, *wanted),
            Op::Not => self.not(registers),
            Op::Logic(connective) => self.connect(registers, *connective),
            Op::Jump { target } => registers.go_to(*target as usize),
            Op::JumpIf { condition, target } => self.jump_if(registers, *condition, *target),
            Op::InRange { low, high, target } => {
                self.in_range(registers, Bounds::new(*low, *high), *target)
            }
            Op::SlotInRange {
                slot,
                low,
                high,
                target,
            } => self.slot_in_range(registers, *slot, Bounds::new(*low, *high), *target),
            Op::Loop { slot } => self.enter_loop(registers, loops, *slot),
            Op::Next => self.next_turn(registers),
            Op::Open(connective) => self.open_bracket(registers, *connective),
            Op::Close => self.close_bracket(registers),
            Op::Emit(leaf) => self.emit(registers, *leaf),
            Op::Call { equation } => self.call(registers, layout, *equation),
        }
        true
    }

    /// Makes the values of the instance with this number the slots. Answers its equation.
    pub(crate) fn load(&mut self, layout: &Layout, number: u64) -> Result<usize, AllocError>
        requires { number < count_of layout.now }
        ensures { IfOk result (λ owner. slice_get (instances (carriers_of layout.now)) number
            ≡ Some (record { equation = owner; values = self.new.slots.items })) }
    {
        let owner = layout.equation_of(number);
        let place = number - layout.first(owner);
        let carriers = layout.carriers(owner);
        resize(&mut self.slots, carriers.len())?;
        write_values(&mut self.slots, carriers, place);
        Ok(owner)
    }

    /// Makes ready for a run on the arguments that are the slots, with room for all operands and
    /// loops that code may have and all tokens that it may write, so that no instruction tests for
    /// room.
    fn begin(&mut self, code: &Code) -> Result<(), AllocError>
        ensures { IfOk result (λ _. (p : Program) → p.loops ≡ code.now.loops.now
            → p.stated_tokens ≡ code.now.tokens → AreArguments p.parameters self.old.slots.items
            → Mirrors p self.new (record { place = 0; depth = 0 })
            (start (tagged_arguments p.parameters self.old.slots.items))) }
    {
        fill(&mut self.operands);
        self.loops.clear();
        let slots = self.slots.len() + code.loops.len();
        resize(&mut self.slots, slots)?;
        self.output.clear();
        self.output.reserve(code.tokens as usize)?;
        Ok(())
    }

    /// Runs this code on the arguments that are the slots. The output is then that of the tagged
    /// machine at its END: the tokens of the tree with which it ends. Instances that the code calls
    /// are numbered by the layout.
    ///
    /// # Errors
    /// Memory was refused: for slots and the tokens that the code states, which is reserved before
    /// the run and kept for later runs.
    pub(crate) fn run_code(&mut self, layout: &Layout, code: Code<'_>) -> Result<(), AllocError>
        requires { (p : Program) × CanRun p layout.now code.instructions.now code.loops.now
            code.steps code.tokens self.old.slots.items }
        ensures { IfOk result (λ _. (p : Program)
            → CanRun p layout.now code.entry.instructions.now code.entry.loops.now code.entry.steps
            code.entry.tokens self.old.slots.items
            → IsOutput p self.old.slots.items self.new.output.items) }
    {
        self.begin(&code)?;
        let mut registers = Registers { place: 0, depth: 0 };
        let mut left = code.steps;
        // Each turn executes one instruction or more, so that there are turns enough.
        while left > 0 {
            left -= 1;
            if !self.advance(&mut registers, layout, &code) {
                return Ok(());
            }
        }
        unreachable!()
    }
}
