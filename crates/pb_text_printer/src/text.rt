//! Writes whole texts: ranges, sorts, equations and the instance that is asked for, each on its
//! line.

ghost use Rattle.std.specs.Prelude.{◌≡◌, ◌==◌, ◌∷◌, [], length, false, true, flat_map, map};
ghost use Rattle.std.specs.Prelude.{string_bytes, IfOk};
ghost use Rattle.std.specs.Result.{OnOk};
ghost use Rattle.pb_text_tree.specs.Form.{enumerator_form, equation_form, range_form};
ghost use Rattle.pb_text_tree.specs.Form.{recogniser_form, sort_declaration_form, sort_form};
ghost use Rattle.pb_text_tree.specs.Form.{spec_form, variable_forms};
ghost use Rattle.pb_text_printer.specs.Page.{after, broken, page, typed};
ghost use Rattle.pb_text_printer.specs.Parts as parts;
ghost use Rattle.pb_text_printer.specs.Words as words;

use crate::formula::write_plain;
use crate::level::RightEnd;
use crate::term::write_instance;
use crate::variables::write_variables;
use crate::writer::Writer;
use pb_fixpoint::Sign;
use pb_text_tree::{Enumerator, Equation, Name, Range, Sort, SortDeclaration, Spec, Variables};
use std::alloc::{AllocError, Global};

/// A range line.
fn write_range(out: &mut Writer, alloc: Global, range: &Range) -> Result<(), AllocError>
    ensures { OnOk result (page out.new ≡ broken
        (typed false true (words.range_bytes (range_form range.now)) (page out.old))) }
{
    let Range {
        name,
        low,
        high,
        ..
    } = range;
    let line = format!(in alloc; "%range {name} {low} {high}")?;
    out.close(line.as_str())?;
    out.end_line()
}

/// The range lines.
fn write_ranges(out: &mut Writer, alloc: Global, ranges: &[Range]) -> Result<(), AllocError>
    ensures { OnOk result (page out.new ≡ parts.behind_ranges (map range_form ranges.now)
        (page out.old)) }
{
    for range in ranges {
        write_range(out, alloc, range)?;
    }
    Ok(())
}

/// A bar, but before the first.
fn write_bar(out: &mut Writer, index: usize) -> Result<(), AllocError>
    ensures { OnOk result (page out.new ≡ after (parts.bar_words index) (page out.old)) }
{
    if index == 0 { Ok(()) } else { out.word("|") }
}

/// A recogniser, if there is one.
fn write_recogniser(out: &mut Writer, recogniser: &Option<Name>) -> Result<(), AllocError>
    ensures { OnOk result (page out.new ≡ after
        (words.recogniser_words (recogniser_form recogniser.now)) (page out.old)) }
{
    match recogniser {
        None => Ok(()),
        Some(name) => {
            out.word("?")?;
            out.word(name.text.as_str())
        }
    }
}

/// An enumerator, with its recogniser if it has one.
fn write_enumerator(out: &mut Writer, enumerator: &Enumerator) -> Result<(), AllocError>
    ensures { OnOk result (page out.new ≡ after
        (words.enumerator_words (enumerator_form enumerator.now)) (page out.old)) }
{
    out.word(enumerator.name.text.as_str())?;
    write_recogniser(out, &enumerator.recogniser)
}

/// Enumerators with bars between them.
fn write_enumerators(out: &mut Writer, enumerators: &[Enumerator]) -> Result<(), AllocError>
    ensures { OnOk result (page out.new ≡ after
        (words.enumerators_words (map enumerator_form enumerators.now)) (page out.old)) }
{
    for (index, enumerator) in enumerators.iter().enumerate() {
        write_bar(out, index)?;
        write_enumerator(out, enumerator)?;
    }
    Ok(())
}

/// What a sort is declared to be.
fn write_sort(out: &mut Writer, sort: &Sort) -> Result<(), AllocError>
    ensures { OnOk result (page out.new ≡ after (words.sort_words (sort_form sort.now))
        (page out.old)) }
{
    match sort {
        Sort::Struct(enumerators) => {
            out.word("struct")?;
            write_enumerators(out, enumerators)
        }
        Sort::Alias(name) => out.word(name.text.as_str()),
    }
}

/// The semicolon that ends a line.
fn write_semicolon(out: &mut Writer) -> Result<(), AllocError>
    ensures { OnOk result (page out.new ≡ after (words.semicolon_word ∷ []) (page out.old)) }
{
    out.close(";")?;
    out.end_line()
}

/// The declaration of a sort.
fn write_declaration(out: &mut Writer, declaration: &SortDeclaration) -> Result<(), AllocError>
    ensures { OnOk result (page out.new ≡ after
        (words.declaration_words (sort_declaration_form declaration.now)) (page out.old)) }
{
    out.word(declaration.name.text.as_str())?;
    out.word("=")?;
    write_sort(out, &declaration.sort)?;
    write_semicolon(out)
}

/// Declarations of sorts.
fn write_declarations(out: &mut Writer, declarations: &[SortDeclaration]) -> Result<(), AllocError>
    ensures { OnOk result (page out.new ≡ after
        (flat_map words.declaration_words (map sort_declaration_form declarations.now))
        (page out.old)) }
{
    for declaration in declarations {
        write_declaration(out, declaration)?;
    }
    Ok(())
}

/// Sorts under one word, or nothing where there are none.
fn write_sorts(out: &mut Writer, declarations: &[SortDeclaration]) -> Result<(), AllocError>
    ensures { OnOk result (page out.new ≡ after
        (words.sorts_words (map sort_declaration_form declarations.now)) (page out.old)) }
{
    if declarations.is_empty() {
        return Ok(());
    }
    out.word("sort")?;
    out.end_line()?;
    write_declarations(out, declarations)
}

/// The sign of an equation.
fn write_sign(out: &mut Writer, sign: Sign) -> Result<(), AllocError>
    ensures { OnOk result (page out.new ≡ after (words.sign_word sign ∷ []) (page out.old)) }
{
    match sign {
        Sign::Mu => out.word("mu"),
        Sign::Nu => out.word("nu"),
    }
}

/// Whether there is no name.
fn has_no_name(names: &[Name]) -> bool
    ensures { result ≡ (length names.now == 0) }
{
    names.is_empty()
}

/// Whether there is no variable.
fn are_none(groups: &[Variables]) -> bool
    ensures { result ≡ parts.are_none (variable_forms groups.now) }
{
    for group in groups {
        if !has_no_name(&group.names) {
            return false;
        }
    }
    true
}

/// Parameters in brackets, or nothing where there are none.
fn write_parameters(out: &mut Writer, parameters: &[Variables]) -> Result<(), AllocError>
    ensures { OnOk result (page out.new ≡ after
        (words.parameter_words (variable_forms parameters.now)) (page out.old)) }
{
    if are_none(parameters) {
        return Ok(());
    }
    out.open_list()?;
    write_variables(out, parameters)?;
    out.close(")")
}

fn write_equation(out: &mut Writer, alloc: Global, equation: &Equation) -> Result<(), AllocError>
    ensures { OnOk result (page out.new ≡ after (words.equation_words (equation_form equation.now))
        (page out.old)) }
{
    write_sign(out, equation.sign)?;
    out.word(equation.name.text.as_str())?;
    write_parameters(out, &equation.parameters)?;
    out.word("=")?;
    write_plain(out, alloc, &equation.right, RightEnd::Open)?;
    write_semicolon(out)
}

fn write_equations(
    out: &mut Writer,
    alloc: Global,
    equations: &[Equation],
) -> Result<(), AllocError>
    ensures { OnOk result (page out.new ≡ after
        (flat_map words.equation_words (map equation_form equations.now)) (page out.old)) }
{
    for equation in equations {
        write_equation(out, alloc, equation)?;
    }
    Ok(())
}

/// A whole text.
pub fn write_text(alloc: Global, spec: &Spec) -> Result<String, AllocError>
    ensures { IfOk result (λ text. string_bytes text ≡ words.text_bytes (spec_form spec.now)) }
{
    let mut out = Writer::new(alloc);
    write_ranges(&mut out, alloc, &spec.ranges)?;
    write_sorts(&mut out, &spec.sorts)?;
    out.word("pbes")?;
    out.end_line()?;
    write_equations(&mut out, alloc, &spec.equations)?;
    out.word("init")?;
    write_instance(&mut out, alloc, &spec.initial)?;
    write_semicolon(&mut out)?;
    Ok(out.into_text())
}
