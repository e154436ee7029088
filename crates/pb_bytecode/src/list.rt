//! The listing of a module, for people to read. `specs/Listing.antt` says what is written.
ghost use Rattle.std.specs.Prelude.{◌≡◌, ◌<◌, ◌+◌, ◌^◌, ◌++◌, length, map, string_bytes, OnOk};
ghost use Rattle.std.specs.Prelude.{IfOk};
ghost use Rattle.std.specs.Fmt.{signed_decimal};
ghost use Rattle.std.specs.List.{AllByRecursion};
ghost use Rattle.pb_bytecode.specs.Countable.{HasCountableParts};
ghost use Rattle.pb_bytecode.specs.Decoded.{module_contents};
ghost use Rattle.pb_bytecode.specs.Listing.{equation_lines, head_line, initial_line, line_end};
ghost use Rattle.pb_bytecode.specs.Listing.{listing, numbered_lines, op_line, op_name};
ghost use Rattle.pb_bytecode.specs.Listing.{sign_name, slot_line, slot_lines, sort_line};
ghost use Rattle.pb_bytecode.specs.Listing.{stated_lines, operand_words};
ghost use Rattle.pb_bytecode.specs.Views.{equation_contents, initial_contents, sort_contents};
ghost use Rattle.pb_bytecode.specs.Views.{text_of};

use crate::equation::Equation;
use crate::initial::Initial;
use crate::module::Module;
use crate::name::Name;
use crate::sort::Sort;
use pb_bytecode_program::{Arithmetic, Comparison, Equality, Junction, Leaf, Op};
use pb_fixpoint::Sign;
use pb_sorts::Carrier;
use std::alloc::{AllocError, Global};

/// Names, each behind a space, and the line's end.
fn list_names(text: &mut String, names: &[Name]) -> Result<(), AllocError>
    ensures { OnOk result (string_bytes text.new ≡ string_bytes text.old
        ++ line_end (map text_of names.now)) }
{
    for name in names {
        write!(text, " {}", name.text.as_str())?;
    }
    writeln!(text)
}

fn list_sort(text: &mut String, index: usize, sort: &Sort) -> Result<(), AllocError>
    ensures { OnOk result (string_bytes text.new ≡ string_bytes text.old
        ++ sort_line index (sort_contents sort.now)) }
{
    write!(text, "sort {index}")?;
    list_names(text, &sort.enumerators)
}

fn list_sorts(text: &mut String, sorts: &[Sort]) -> Result<(), AllocError>
    ensures { OnOk result (string_bytes text.new ≡ string_bytes text.old
        ++ numbered_lines sort_line 0 (map sort_contents sorts.now)) }
{
    for (index, sort) in sorts.iter().enumerate() {
        list_sort(text, index, sort)?;
    }
    Ok(())
}

/// A slot's line: its kind, its number and its carrier.
fn list_slot(
    text: &mut String,
    kind: &str,
    slot: usize,
    carrier: &Carrier,
) -> Result<(), AllocError>
    ensures { OnOk result (string_bytes text.new ≡ string_bytes text.old
        ++ slot_line kind.now slot carrier.now) }
{
    match carrier {
        Carrier::Bool => writeln!(text, "{kind} {slot} Bool"),
        Carrier::Enum(enumeration) => writeln!(text, "{kind} {slot} Enum {}", enumeration.sort),
        Carrier::Range(range) => writeln!(text, "{kind} {slot} Range {} {}", range.low, range.high),
    }
}

/// Slots of one kind, which are numbered from `first` on.
fn list_slots(
    text: &mut String,
    kind: &str,
    first: usize,
    carriers: &[Carrier],
) -> Result<(), AllocError>
    requires { first + length carriers.now < 2 ^ 64 }
    ensures { OnOk result (string_bytes text.new ≡ string_bytes text.old
        ++ numbered_lines (slot_line kind.now) first carriers.now) }
{
    for (index, carrier) in carriers.iter().enumerate() {
        list_slot(text, kind, first + index, carrier)?;
    }
    Ok(())
}

fn list_all_slots(text: &mut String, equation: &Equation) -> Result<(), AllocError>
    requires { HasCountableParts equation.now }
    ensures { OnOk result (string_bytes text.new ≡ string_bytes text.old
        ++ slot_lines (equation_contents equation.now)) }
{
    list_slots(text, "param", 0, &equation.parameters)?;
    list_slots(text, "loop", equation.parameters.len(), &equation.loops)
}

/// The name of an instruction.
fn op_name(op: &Op) -> &'static str
    ensures { result.now ≡ op_name op.now }
{
    match op {
        Op::End => "END",
        Op::PushInt(_) => "INT",
        Op::PushBool(_) => "BOOL",
        Op::PushEnum { .. } => "ENUM",
        Op::Get { .. } => "GET",
        Op::Pop => "POP",
        Op::Arithmetic(Arithmetic::Add) => "ADD",
        Op::Arithmetic(Arithmetic::Sub) => "SUB",
        Op::Arithmetic(Arithmetic::Mul) => "MUL",
        Op::Negate => "NEG",
        Op::Arithmetic(Arithmetic::Div) => "DIV",
        Op::Arithmetic(Arithmetic::Mod) => "MOD",
        Op::Arithmetic(Arithmetic::Min) => "MIN",
        Op::Arithmetic(Arithmetic::Max) => "MAX",
        Op::Absolute => "ABS",
        Op::Compare(Comparison::Less) => "LT",
        Op::Compare(Comparison::LessOrEqual) => "LE",
        Op::Compare(Comparison::Greater) => "GT",
        Op::Compare(Comparison::GreaterOrEqual) => "GE",
        Op::Equality(Equality::Equal) => "EQ",
        Op::Equality(Equality::NotEqual) => "NE",
        Op::Not => "NOT",
        Op::Logic(Junction::Conjunction) => "BAND",
        Op::Logic(Junction::Disjunction) => "BOR",
        Op::Jump { .. } => "JMP",
        Op::JumpIf {
            condition: true,
            ..
        } => "JT",
        Op::JumpIf {
            condition: false,
            ..
        } => "JF",
        Op::InRange { .. } => "RNG",
        Op::Loop { .. } => "LOOP",
        Op::Next => "NEXT",
        Op::Open(Junction::Conjunction) => "AND",
        Op::Open(Junction::Disjunction) => "OR",
        Op::Close => "CLOSE",
        Op::Emit(Leaf::Yes) => "YES",
        Op::Emit(Leaf::No) => "NO",
        Op::Emit(Leaf::Cut) => "CUT",
        Op::Call { .. } => "CALL",
        Op::SlotInRange { .. } => "INL",
    }
}

/// What stands in the code behind an instruction, each behind a space, and the line's end.
fn list_operands(text: &mut String, op: &Op) -> Result<(), AllocError>
    ensures { OnOk result (string_bytes text.new ≡ string_bytes text.old
        ++ line_end (operand_words op.now)) }
{
    match op {
        Op::PushInt(number) => writeln!(text, " {number}"),
        Op::PushBool(false) => writeln!(text, " 0"),
        Op::PushBool(true) => writeln!(text, " 1"),
        Op::PushEnum { sort, index } => writeln!(text, " {sort} {index}"),
        Op::Get { slot } | Op::Loop { slot } => writeln!(text, " {slot}"),
        Op::Jump { target } | Op::JumpIf { target, .. } => writeln!(text, " {target}"),
        Op::InRange { low, high, target } => writeln!(text, " {low} {high} {target}"),
        Op::SlotInRange {
            slot,
            low,
            high,
            target,
        } => writeln!(text, " {slot} {low} {high} {target}"),
        Op::Call { equation } => writeln!(text, " {equation}"),
        _ => writeln!(text),
    }
}

/// An instruction's line: its place, its name and its operands.
fn list_op(text: &mut String, place: usize, op: &Op) -> Result<(), AllocError>
    ensures { OnOk result (string_bytes text.new ≡ string_bytes text.old ++ op_line place op.now) }
{
    write!(text, "{place} {}", op_name(op))?;
    list_operands(text, op)
}

fn list_code(text: &mut String, code: &[Op]) -> Result<(), AllocError>
    ensures { OnOk result (string_bytes text.new ≡ string_bytes text.old
        ++ numbered_lines op_line 0 code.now) }
{
    for (place, op) in code.iter().enumerate() {
        list_op(text, place, op)?;
    }
    Ok(())
}

fn sign_name(sign: Sign) -> &'static str
    ensures { result.now ≡ sign_name sign }
{
    match sign {
        Sign::Mu => "mu",
        Sign::Nu => "nu",
    }
}

/// An equation's first line: its sign and its predicate variable.
fn list_head(text: &mut String, index: usize, equation: &Equation) -> Result<(), AllocError>
    ensures { OnOk result (string_bytes text.new ≡ string_bytes text.old
        ++ head_line index (equation_contents equation.now)) }
{
    let sign = sign_name(equation.sign);
    let name = equation.name.text.as_str();
    writeln!(text, "equation {index} {sign} {name}")
}

/// The stated counts of steps and tokens.
fn list_stated(text: &mut String, equation: &Equation) -> Result<(), AllocError>
    ensures { OnOk result (string_bytes text.new ≡ string_bytes text.old
        ++ stated_lines (equation_contents equation.now)) }
{
    writeln!(text, "steps {}", equation.steps)?;
    writeln!(text, "tokens {}", equation.tokens)
}

fn list_equation(text: &mut String, index: usize, equation: &Equation) -> Result<(), AllocError>
    requires { HasCountableParts equation.now }
    ensures { OnOk result (string_bytes text.new ≡ string_bytes text.old
        ++ equation_lines index (equation_contents equation.now)) }
{
    list_head(text, index, equation)?;
    list_all_slots(text, equation)?;
    list_stated(text, equation)?;
    list_code(text, &equation.code)
}

fn list_equations(text: &mut String, equations: &[Equation]) -> Result<(), AllocError>
    requires { AllByRecursion HasCountableParts equations.now }
    ensures { OnOk result (string_bytes text.new ≡ string_bytes text.old
        ++ numbered_lines equation_lines 0 (map equation_contents equations.now)) }
{
    for (index, equation) in equations.iter().enumerate() {
        list_equation(text, index, equation)?;
    }
    Ok(())
}

/// Numbers, each behind a space, and the line's end.
fn list_values(text: &mut String, values: &[i64]) -> Result<(), AllocError>
    ensures { OnOk result (string_bytes text.new ≡ string_bytes text.old
        ++ line_end (map signed_decimal values.now)) }
{
    for value in values {
        write!(text, " {value}")?;
    }
    writeln!(text)
}

fn list_initial(text: &mut String, initial: &Initial) -> Result<(), AllocError>
    ensures { OnOk result (string_bytes text.new ≡ string_bytes text.old
        ++ initial_line (initial_contents initial.now)) }
{
    write!(text, "init {}", initial.equation)?;
    list_values(text, &initial.values)
}

/// The listing of a module: a line for each sort, then for each equation its slots, stated counts
/// and instructions, and the initial instance at the end. Words are separated by one space, and
/// each line ends with a line feed.
///
/// # Errors
/// Where memory ran out.
pub fn list(alloc: Global, module: &Module) -> Result<Vec<u8>, AllocError>
    ensures { IfOk result (λ bytes. bytes.items ≡ listing (module_contents «module».now)) }
{
    let mut text = String::new(alloc);
    list_sorts(&mut text, &module.sorts)?;
    list_equations(&mut text, &module.equations)?;
    list_initial(&mut text, &module.initial)?;
    Ok(text.into_bytes())
}
