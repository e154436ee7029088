//! Writing modules.
ghost use Rattle.std.specs.Prelude.{◌≡◌, ◌<◌, ◌^◌, ◌++◌, length, map, OnOk, IfOk};
ghost use Rattle.std.specs.List.{AllByRecursion, flat_map};
ghost use Rattle.pb_bytecode.specs.Countable.{HasCountableParts};
ghost use Rattle.pb_bytecode.specs.Decoded.{module_contents};
ghost use Rattle.pb_bytecode.specs.Spelling.{bounds, byte, carrier_bytes, counted, equation_bytes};
ghost use Rattle.pb_bytecode.specs.Spelling.{i64, initial_bytes, name_bytes, op_bytes, op_code};
ghost use Rattle.pb_bytecode.specs.Spelling.{op_operands, sign_bytes, sort_bytes, spelling, u16};
ghost use Rattle.pb_bytecode.specs.Spelling.{u32, version_bytes};
ghost use Rattle.pb_bytecode.specs.Views.{equation_contents, initial_contents, sort_contents};
ghost use Rattle.pb_bytecode.specs.Views.{text_of};

use crate::decode::MARK;
use crate::equation::Equation;
use crate::initial::Initial;
use crate::module::Module;
use crate::name::Name;
use crate::sort::Sort;
use pb_bytecode_program::{Arithmetic, Comparison, Equality, Junction, Leaf, Op, Version};
use pb_fixpoint::Sign;
use pb_sorts::Carrier;
use std::alloc::{AllocError, Global};

#[tactic(auto, using(crate::proofs::NameBytes::name_short))]
fn put_name(out: &mut Vec<u8>, name: &Name) -> Result<(), AllocError>
    ensures { OnOk result (out.new.items ≡ out.old.items ++ name_bytes (text_of name.now)) }
{
    out.push(name.text.len() as u8)?;
    out.extend_from_slice(name.text.as_bytes())
}

fn put_names(out: &mut Vec<u8>, names: &[Name]) -> Result<(), AllocError>
    ensures { OnOk result (out.new.items ≡ out.old.items
        ++ flat_map name_bytes (map text_of names.now)) }
{
    for name in names {
        put_name(out, name)?;
    }
    Ok(())
}

fn put_sort(out: &mut Vec<u8>, sort: &Sort) -> Result<(), AllocError>
    ensures { OnOk result (out.new.items ≡ out.old.items ++ sort_bytes (sort_contents sort.now)) }
{
    out.push(sort.enumerators.len() as u8)?;
    put_names(out, &sort.enumerators)
}

fn put_sorts(out: &mut Vec<u8>, sorts: &[Sort]) -> Result<(), AllocError>
    ensures { OnOk result (out.new.items ≡ out.old.items
        ++ flat_map sort_bytes (map sort_contents sorts.now)) }
{
    for sort in sorts {
        put_sort(out, sort)?;
    }
    Ok(())
}

/// Two bounds.
fn put_bounds(out: &mut Vec<u8>, low: &i32, high: &i32) -> Result<(), AllocError>
    ensures { OnOk result (out.new.items ≡ out.old.items ++ bounds low.now high.now) }
{
    out.extend_from_slice(&low.to_le_bytes())?;
    out.extend_from_slice(&high.to_le_bytes())
}

/// The tag of a range, and its bounds.
fn put_range(out: &mut Vec<u8>, low: &i32, high: &i32) -> Result<(), AllocError>
    ensures { OnOk result (out.new.items ≡ out.old.items ++ (byte 2 ++ bounds low.now high.now)) }
{
    out.push(2)?;
    put_bounds(out, low, high)
}

fn put_carrier(out: &mut Vec<u8>, carrier: &Carrier) -> Result<(), AllocError>
    ensures { OnOk result (out.new.items ≡ out.old.items ++ carrier_bytes carrier.now) }
{
    match carrier {
        Carrier::Bool => out.push(0)?,
        Carrier::Enum(enumeration) => {
            out.push(1)?;
            out.push(enumeration.sort)?;
        }
        Carrier::Range(range) => put_range(out, &range.low, &range.high)?,
    }
    Ok(())
}

fn put_each_carrier(out: &mut Vec<u8>, carriers: &[Carrier]) -> Result<(), AllocError>
    ensures { OnOk result (out.new.items ≡ out.old.items ++ flat_map carrier_bytes carriers.now) }
{
    for carrier in carriers {
        put_carrier(out, carrier)?;
    }
    Ok(())
}

fn put_carriers(out: &mut Vec<u8>, carriers: &[Carrier]) -> Result<(), AllocError>
    requires { length carriers.now < 256 }
    ensures { OnOk result (out.new.items ≡ out.old.items ++ counted carrier_bytes carriers.now) }
{
    out.push(carriers.len() as u8)?;
    put_each_carrier(out, carriers)
}

fn code_of(op: &Op) -> u8
    ensures { result ≡ op_code op.now }
{
    match op {
        Op::End => 0x00,
        Op::PushInt(_) => 0x01,
        Op::PushBool(_) => 0x02,
        Op::PushEnum { .. } => 0x03,
        Op::Get { .. } => 0x04,
        Op::Pop => 0x05,
        Op::Arithmetic(Arithmetic::Add) => 0x06,
        Op::Arithmetic(Arithmetic::Sub) => 0x07,
        Op::Arithmetic(Arithmetic::Mul) => 0x08,
        Op::Negate => 0x09,
        Op::Arithmetic(Arithmetic::Div) => 0x0a,
        Op::Arithmetic(Arithmetic::Mod) => 0x0b,
        Op::Arithmetic(Arithmetic::Min) => 0x0c,
        Op::Arithmetic(Arithmetic::Max) => 0x0d,
        Op::Absolute => 0x0e,
        Op::Compare(Comparison::Less) => 0x0f,
        Op::Compare(Comparison::LessOrEqual) => 0x10,
        Op::Compare(Comparison::Greater) => 0x11,
        Op::Compare(Comparison::GreaterOrEqual) => 0x12,
        Op::Equality(Equality::Equal) => 0x13,
        Op::Equality(Equality::NotEqual) => 0x14,
        Op::Not => 0x15,
        Op::Logic(Junction::Conjunction) => 0x16,
        Op::Logic(Junction::Disjunction) => 0x17,
        Op::Jump { .. } => 0x18,
        Op::JumpIf {
            condition: true,
            ..
        } => 0x19,
        Op::JumpIf {
            condition: false,
            ..
        } => 0x1a,
        Op::InRange { .. } => 0x1b,
        Op::Loop { .. } => 0x1c,
        Op::Next => 0x1d,
        Op::Open(Junction::Conjunction) => 0x1e,
        Op::Open(Junction::Disjunction) => 0x1f,
        Op::Close => 0x20,
        Op::Emit(Leaf::Yes) => 0x21,
        Op::Emit(Leaf::No) => 0x22,
        Op::Emit(Leaf::Cut) => 0x23,
        Op::Call { .. } => 0x24,
        Op::SlotInRange { .. } => 0x25,
    }
}

/// Two bounds and a target.
fn put_test(out: &mut Vec<u8>, low: &i32, high: &i32, target: u16) -> Result<(), AllocError>
    ensures { OnOk result (out.new.items ≡ out.old.items
        ++ (bounds low.now high.now ++ u16 target)) }
{
    put_bounds(out, low, high)?;
    out.extend_from_slice(&target.to_le_bytes())
}

/// A slot, two bounds and a target.
fn put_slot_test(
    out: &mut Vec<u8>,
    slot: u8,
    low: &i32,
    high: &i32,
    target: u16,
) -> Result<(), AllocError>
    ensures { OnOk result (out.new.items ≡ out.old.items
        ++ (byte slot ++ (bounds low.now high.now ++ u16 target))) }
{
    out.push(slot)?;
    put_test(out, low, high, target)?;
    Ok(())
}

fn put_operands(out: &mut Vec<u8>, op: &Op) -> Result<(), AllocError>
    ensures { OnOk result (out.new.items ≡ out.old.items ++ op_operands op.now) }
{
    match op {
        Op::PushInt(number) => out.extend_from_slice(&number.to_le_bytes())?,
        Op::PushBool(truth) => out.push(u8::from(*truth))?,
        Op::PushEnum { sort, index } => {
            out.push(*sort)?;
            out.push(*index)?;
        }
        Op::Get { slot } | Op::Loop { slot } => out.push(*slot)?,
        Op::Jump { target } | Op::JumpIf { target, .. } => {
            out.extend_from_slice(&target.to_le_bytes())?;
        }
        Op::InRange { low, high, target } => put_test(out, low, high, *target)?,
        Op::SlotInRange {
            slot,
            low,
            high,
            target,
        } => put_slot_test(out, *slot, low, high, *target)?,
        Op::Call { equation } => out.push(*equation)?,
        _ => {}
    }
    Ok(())
}

fn put_op(out: &mut Vec<u8>, op: &Op) -> Result<(), AllocError>
    ensures { OnOk result (out.new.items ≡ out.old.items ++ op_bytes op.now) }
{
    out.push(code_of(op))?;
    put_operands(out, op)
}

fn put_ops(out: &mut Vec<u8>, code: &[Op]) -> Result<(), AllocError>
    ensures { OnOk result (out.new.items ≡ out.old.items ++ flat_map op_bytes code.now) }
{
    for op in code {
        put_op(out, op)?;
    }
    Ok(())
}

fn put_code(out: &mut Vec<u8>, code: &[Op]) -> Result<(), AllocError>
    requires { length code.now < 2 ^ 16 }
    ensures { OnOk result (out.new.items ≡ out.old.items
        ++ (u16 (length code.now) ++ flat_map op_bytes code.now)) }
{
    out.extend_from_slice(&(code.len() as u16).to_le_bytes())?;
    put_ops(out, code)
}

fn put_sign(out: &mut Vec<u8>, sign: Sign) -> Result<(), AllocError>
    ensures { OnOk result (out.new.items ≡ out.old.items ++ sign_bytes sign) }
{
    match sign {
        Sign::Mu => out.push(0)?,
        Sign::Nu => out.push(1)?,
    }
    Ok(())
}

fn put_u32(out: &mut Vec<u8>, number: u32) -> Result<(), AllocError>
    ensures { OnOk result (out.new.items ≡ out.old.items ++ u32 number) }
{
    out.extend_from_slice(&number.to_le_bytes())
}

fn put_equation(out: &mut Vec<u8>, equation: &Equation) -> Result<(), AllocError>
    requires { HasCountableParts equation.now }
    ensures { OnOk result (out.new.items ≡ out.old.items
        ++ equation_bytes (equation_contents equation.now)) }
{
    put_sign(out, equation.sign)?;
    put_name(out, &equation.name)?;
    put_carriers(out, &equation.parameters)?;
    put_carriers(out, &equation.loops)?;
    put_u32(out, equation.steps)?;
    put_u32(out, equation.tokens)?;
    put_code(out, &equation.code)?;
    Ok(())
}

fn put_equations(out: &mut Vec<u8>, equations: &[Equation]) -> Result<(), AllocError>
    requires { AllByRecursion HasCountableParts equations.now }
    ensures { OnOk result (out.new.items ≡ out.old.items
        ++ flat_map equation_bytes (map equation_contents equations.now)) }
{
    for equation in equations {
        put_equation(out, equation)?;
    }
    Ok(())
}

fn put_value(out: &mut Vec<u8>, value: &i64) -> Result<(), AllocError>
    ensures { OnOk result (out.new.items ≡ out.old.items ++ i64 value.now) }
{
    out.extend_from_slice(&value.to_le_bytes())
}

fn put_values(out: &mut Vec<u8>, values: &[i64]) -> Result<(), AllocError>
    ensures { OnOk result (out.new.items ≡ out.old.items ++ flat_map i64 values.now) }
{
    for value in values {
        put_value(out, value)?;
    }
    Ok(())
}

fn put_initial(out: &mut Vec<u8>, initial: &Initial) -> Result<(), AllocError>
    ensures { OnOk result (out.new.items ≡ out.old.items
        ++ initial_bytes (initial_contents initial.now)) }
{
    out.push(initial.equation)?;
    put_values(out, &initial.values)
}

fn put_version(out: &mut Vec<u8>, version: Version) -> Result<(), AllocError>
    ensures { OnOk result (out.new.items ≡ out.old.items ++ version_bytes version) }
{
    match version {
        Version::One => out.push(1)?,
        Version::Two => out.push(2)?,
    }
    Ok(())
}

/// The one spelling of a module.
///
/// # Errors
/// Where memory ran out.
pub fn encode(alloc: Global, module: &Module) -> Result<Vec<u8>, AllocError>
    ensures { IfOk result (λ bytes. bytes.items ≡ spelling (module_contents «module».now)) }
{
    let mut out = Vec::from_slice(alloc, &MARK)?;
    put_version(&mut out, module.version)?;
    out.push(module.sorts.len() as u8)?;
    put_sorts(&mut out, &module.sorts)?;
    out.push(module.equations.len() as u8)?;
    put_equations(&mut out, &module.equations)?;
    put_initial(&mut out, &module.initial)?;
    Ok(out)
}
