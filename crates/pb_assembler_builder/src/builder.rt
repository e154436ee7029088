//! Code in the making, whose jumps name labels in place of places.

ghost use Rattle.std.specs.Prelude.{◌≡◌, ◌≤◌, ◌<◌, ◌++◌, ◌∷◌, [], true, length, map, IfOk};
ghost use Rattle.std.specs.Prelude.{IfErr, OnOk, OnErr, Some, None};
ghost use Rattle.std.specs.List.{list_any, slice_set};
ghost use Rattle.pb_base.specs.declared.limits.TheConstants.{MAX_INSTRUCTIONS};
ghost use Rattle.pb_assembler_builder.specs.Draft.{are_placed, are_within};
ghost use Rattle.pb_assembler_builder.specs.Draft.{is_labelled, is_slot_test, label_place};
ghost use Rattle.pb_assembler_builder.specs.Draft.{needed_version, resolved, resolved_op};
ghost use Rattle.pb_assembler_builder.specs.declared.instruction.Instruction.TheVariants
    as instruction;

use crate::instruction::{Instruction, Jump};
use pb_bytecode_program::{Op, Version};
use std::alloc::{AllocError, Global};
use std::marker::Model;

/// A place of code that may not be known yet.
#[derive(Clone, Copy, PartialEq, Eq)]
pub struct Label {
    number: usize,
}

/// Instructions in order, and labels for the targets of jumps. Contracts see the instructions, each
/// jump with its label, and the places of the labels so far (`specs/Draft.antt`).
#[derive(Drop)]
pub struct Builder {
    ops: Vec<Instruction>,
    places: Vec<Option<usize>>,
}

impl Model for Builder {
    ghost use Rattle.std.specs.Prelude.{◌≡◌, true, length};
    ghost use Rattle.pb_assembler_builder.specs.Draft.{Draft, are_labelled, are_within};

    ghost Value = { Draft };

    ghost view = { λ builder. record { ops = builder.ops.items; places = builder.places.items } };

    ghost invariant = { λ builder. (are_labelled (length builder.places.items) builder.ops.items
        ≡ true) × (are_within (length builder.ops.items) builder.places.items ≡ true) };
}

/// Whether version 1 of the module format lacks the instruction.
fn is_slot_test(instruction: Instruction) -> bool
    ensures { result ≡ is_slot_test instruction }
{
    match instruction {
        Instruction::Jump {
            jump: Jump::SlotInRange { .. },
            label: _,
        } => true,
        _ => false,
    }
}

/// The instruction, its target being its label's place.
fn resolve(places: &[Option<usize>], instruction: Instruction) -> Op
    requires label { is_labelled (length places.now) instruction ≡ true }
    requires placed { are_placed places.now ≡ true }
    requires within { are_within MAX_INSTRUCTIONS places.now ≡ true }
    ensures { result ≡ resolved_op (label_place places.now) instruction }
{
    match instruction {
        Instruction::Plain(op) => op,
        Instruction::Jump { jump, label } => match places[label] {
            Some(place) => jump.to(place as u16),
            None => unreachable!(),
        },
    }
}

impl Builder {
    /// No instruction, and no label, with room for so many instructions.
    ///
    /// # Errors
    /// Memory was refused.
    pub fn with_capacity(alloc: Global, instructions: usize) -> Result<Builder, AllocError>
        ensures { IfOk result (λ builder. builder ≡ record { ops = []; places = [] }) }
    {
        let ops = Vec::with_capacity(alloc, instructions)?;
        let places = Vec::new(alloc);
        Ok(Builder { ops, places })
    }

    /// How many instructions there are.
    pub fn len(&self) -> usize
        ensures { result ≡ length self.now.ops }
    {
        self.ops.len()
    }

    /// A new label.
    ///
    /// # Errors
    /// Memory was refused; nothing has changed.
    pub fn label(&mut self) -> Result<Label, AllocError>
        ensures label { IfOk result (λ label. label.number ≡ length self.old.places) }
        ensures ok { OnOk result (self.new ≡ record self.old
            { places = self.old.places ++ None ∷ [] }) }
        ensures err { OnErr result (self.new ≡ self.old) }
    {
        let number = self.places.len();
        self.places.push(None)?;
        Ok(Label { number })
    }

    /// Gives a label of this builder its place: the next instruction's.
    pub fn place(&mut self, label: Label)
        ensures { self.new ≡ record self.old {
          places = slice_set self.old.places label.number
              (Some (length self.old.ops));
        } }
    {
        let place = self.ops.len();
        if label.number < self.places.len() {
            self.places[label.number] = Some(place);
        }
    }

    /// Adds an instruction as it is, without a label.
    ///
    /// # Errors
    /// Memory was refused; nothing has changed.
    pub fn emit(&mut self, op: Op) -> Result<(), AllocError>
        ensures ok { OnOk result (self.new ≡ record self.old
            { ops = self.old.ops ++ instruction.Plain op ∷ [] }) }
        ensures err { OnErr result (self.new ≡ self.old) }
    {
        self.ops.push(Instruction::Plain(op))?;
        Ok(())
    }

    /// Adds a jump, whose target is the place of a label of this builder.
    ///
    /// # Errors
    /// Memory was refused; nothing has changed.
    pub fn emit_jump(&mut self, jump: Jump, label: Label) -> Result<(), AllocError>
        requires { label.number < length self.old.places }
        ensures ok { OnOk result (self.new ≡ record self.old
            { ops = self.old.ops ++ instruction.Jump jump label.number ∷ [] }) }
        ensures err { OnErr result (self.new ≡ self.old) }
    {
        let label = label.number;
        self.ops.push(Instruction::Jump { jump, label })?;
        Ok(())
    }

    /// Whether each label has a place.
    pub fn all_placed(&self) -> bool
        ensures { result ≡ are_placed self.now.places }
    {
        self.places.iter().all(|place| place.is_some())
    }

    /// The version of the module format that the instructions need: 2 exactly where a slot's range
    /// is tested.
    pub fn version(&self) -> Version
        ensures { result ≡ needed_version self.now.ops }
    {
        if self.has_slot_test() {
            Version::Two
        } else {
            Version::One
        }
    }

    fn has_slot_test(&self) -> bool
        ensures { result ≡ list_any is_slot_test self.now.ops }
    {
        self.ops
            .iter()
            .any(|instruction| is_slot_test(*instruction))
    }

    /// The instructions in order, each target being its label's place.
    ///
    /// # Errors
    /// Memory was refused; the builder is handed back.
    pub fn finish(self) -> Result<Vec<Op>, (Builder, AllocError)>
        requires placed { are_placed self.places ≡ true }
        requires few { length self.ops ≤ MAX_INSTRUCTIONS }
        ensures finished { IfOk result (λ ops. ops.items
            ≡ resolved (label_place self.places) self.ops) }
        ensures handed_back { IfErr result (λ refused. refused.0 ≡ self) }
    {
        match self.resolved_ops() {
            Ok(ops) => Ok(ops),
            Err(error) => Err((self, error)),
        }
    }

    /// The same, for a builder that is kept.
    fn resolved_ops(&self) -> Result<Vec<Op>, AllocError>
        requires placed { are_placed self.now.places ≡ true }
        requires few { length self.now.ops ≤ MAX_INSTRUCTIONS }
        ensures { IfOk result (λ ops. ops.items
            ≡ resolved (label_place self.now.places) self.now.ops) }
    {
        let mut ops = Vec::with_capacity(*self.ops.allocator(), self.ops.len())?;
        for instruction in &self.ops {
            let op = resolve(&self.places, *instruction);
            ops.push(op)?;
        }
        Ok(ops)
    }
}
