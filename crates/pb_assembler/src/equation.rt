//! The equations of a module.

ghost use Rattle.std.specs.Prelude.{◌≡◌, ◌++◌, ◌∷◌, [], true, map, IfOk, OnOk};
ghost use Rattle.std.specs.List.{list_all};
ghost use Rattle.pb_text_tree.specs.Form.{equation_form};
ghost use Rattle.pb_bytecode.specs.Views.{equation_contents};
ghost use Rattle.pb_assembler.specs.Compiled.{all_compiled, compiled_contents};
ghost use Rattle.pb_assembler.specs.Compiled.{has_fitting_carriers, has_fitting_fields, AreReady};
ghost use Rattle.pb_assembler.specs.Compiled.{IsReadyToCompile};
ghost use Rattle.pb_assembler_measures.specs.MeasureEquations.{AreMeasuresOfAll, AreMeasuresOf};

use crate::code::equation_code;
use crate::name::copy_name;
use pb_assembler_measures::Measures;
use pb_bytecode::Equation;
use pb_sorts::{Carrier, Layout};
use std::alloc::{AllocError, Global};

/// Adds a carrier.
fn push_carrier(carriers: &mut Vec<Carrier>, carrier: Carrier) -> Result<(), AllocError>
    ensures pushed { OnOk result (carriers.new.items ≡ carriers.old.items ++ carrier ∷ []) }
    ensures fits { has_fitting_fields carrier ≡ true }
{
    carriers.push(carrier)?;
    Ok(())
}

/// The same carriers.
fn copy_carriers(alloc: Global, carriers: &[Carrier]) -> Result<Vec<Carrier>, AllocError>
    ensures same { IfOk result (λ copies. copies.items ≡ carriers.now) }
    ensures fit { IfOk result (λ copies. list_all has_fitting_fields copies.items ≡ true) }
{
    let mut copies = Vec::with_capacity(alloc, carriers.len())?;
    for carrier in carriers {
        push_carrier(&mut copies, *carrier)?;
    }
    Ok(copies)
}

/// An equation's normal form, and how much its code takes.
#[derive(Clone, Copy)]
struct Measured<'a, 't> {
    normal: &'a pb_normal::Equation<'t>,
    measures: &'a Measures,
}

/// An equation of a text, whose normal form is given, with the carriers of its parameters and
/// exactly its static counts.
fn compile_equation(
    alloc: Global,
    layout: &Layout,
    parameters: &[Carrier],
    text: &pb_text_tree::Equation,
    measured: Measured<'_, '_>,
) -> Result<Equation, AllocError>
    requires ready { IsReadyToCompile layout.now parameters.now (equation_form text.now)
        measured.normal.now }
    requires measured { AreMeasuresOf measured.measures.now layout.now measured.normal.now }
    ensures contents { IfOk result (λ X. equation_contents X
        ≡ compiled_contents layout.now parameters.now
        (equation_form text.now) measured.entry.normal.now) }
    ensures fields { IfOk result (λ X. has_fitting_carriers (equation_contents X) ≡ true) }
{
    let normal = measured.normal;
    let measures = measured.measures;
    let name = copy_name(alloc, &text.name.text)?;
    let parameters = copy_carriers(alloc, parameters)?;
    let loops = copy_carriers(alloc, normal.loops)?;
    let instructions = measures.instructions as usize;
    let code = equation_code(alloc, layout, &normal.right, instructions)?;
    Ok(Equation {
        sign: text.sign,
        name,
        parameters,
        loops,
        steps: measures.steps,
        tokens: measures.tokens,
        code,
    })
}

/// The equations of a text, whose normal forms are given and measured, with the carriers of their
/// parameters.
///
/// # Errors
/// Memory was refused.
pub(crate) fn compile_equations(
    alloc: Global,
    layout: &Layout,
    texts: &[pb_text_tree::Equation],
    normals: &[pb_normal::Equation<'_>],
    measures: &[Measures],
) -> Result<Vec<Equation>, AllocError>
    requires ready { AreReady layout.now layout.now
        (map equation_form texts.now) normals.now }
    requires measured { AreMeasuresOfAll layout.now normals.now measures.now }
    ensures contents { IfOk result (λ equations. map equation_contents equations.items
        ≡ all_compiled layout.now layout.now
        (map equation_form texts.now) normals.now) }
    ensures fields { IfOk result (λ equations. list_all has_fitting_carriers
        (map equation_contents equations.items) ≡ true) }
{
    let mut equations = Vec::with_capacity(alloc, normals.len())?;
    for (place, normal) in normals.iter().enumerate() {
        let parameters = layout.carriers(place);
        let measures = &measures[place];
        let measured = Measured { normal, measures };
        let equation = compile_equation(alloc, layout, parameters, &texts[place], measured)?;
        equations.push(equation)?;
    }
    Ok(equations)
}
