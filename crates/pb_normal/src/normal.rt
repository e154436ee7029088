//! The normal form of a text.

ghost use Rattle.std.specs.Prelude.{◌≡◌, true, IfOk};
ghost use Rattle.pb_text_meaning.specs.Meaning.{answer};
ghost use Rattle.pb_typing_tree.specs.View as tree;
ghost use Rattle.pb_typing_tree.proofs.FormulaSet.{shapes-prop};
ghost use Rattle.pb_normal.specs.Answer.{answer_by, normal_equations};
ghost use Rattle.pb_normal.specs.Equations.{HaveTruth};
ghost use Rattle.pb_normal.specs.Loops.{all_loops};
ghost use Rattle.pb_normal.specs.SignedForm.{signed_form};
ghost use Rattle.pb_normal.specs.Text.{said};
ghost use Rattle.pb_normal.specs.View.{formula_view, loop_shapes, right_views};

use crate::formula::Formula;
use crate::signed::signed_form;
use pb_sorts::Carrier;
use pb_typing::{Polarity, Typed};
use std::alloc::{AllocError, Global};

/// An accepted text with the right sides of its equations in positive normal form. Signs, names,
/// parameters and the initial instance are those of the text.
#[derive(Drop)]
pub struct Normal<'t> {
    pub typed: &'t Typed,
    /// The equations in the order of the text.
    pub equations: Vec<Equation<'t>>,
    // Each right side is the positive normal form of the text's.
    pub ghost rights: { ∥ right_views equations.items
        ≡ normal_equations (said typed.now) ∥₁ },
    // The slots behind the parameters are those of the quantified variables, in order.
    pub ghost loops: { loop_shapes equations.items
        ≡ all_loops (said typed.now) } by { shapes-prop _ _ },
}

/// The right side of an equation over slots: its parameters have the first slots, and the variables
/// of its quantifiers the next, in the order of the normal form.
#[derive(Debug, Drop)]
pub struct Equation<'t> {
    pub right: Formula<'t>,
    /// The carriers of the slots behind those of the parameters, in order.
    pub loops: &'t [Carrier],
}

/// The positive normal form of each right side (Groote and Willemse 2005): negation stands on data
/// alone, and each variable is a slot.
///
/// # Errors
/// Memory was refused.
pub fn normalise(alloc: Global, typed: &Typed) -> Result<Normal<'_>, AllocError>
    // It borrows the text.
    ensures text { IfOk result (λ normal. normal.typed.now ≡ typed.now) }
    // Each right side is the positive normal form of the text's.
    ensures rights { IfOk result (λ normal. right_views normal.equations.items
        ≡ normal_equations (said typed.now)) }
    // Each has the truth of the text's, at every instance and under every environment.
    ensures truth { IfOk result (λ normal. HaveTruth (said typed.now) (said typed.now).equations
        (right_views normal.equations.items)) }
    // They have the answer of the text.
    ensures answer { IfOk result (λ normal. answer_by (said typed.now)
        (right_views normal.equations.items) ≡ answer (said typed.now)) }
    // The slots behind the parameters are those of the quantified variables, in order.
    ensures loops { IfOk result (λ normal. loop_shapes normal.equations.items
        ≡ all_loops (said typed.now)) }
{
    let mut equations = Vec::new(alloc);
    for equation in &typed.equations {
        let normal = normal_equation(alloc, equation)?;
        equations.push(normal)?;
    }
    Ok(Normal { typed, equations })
}

/// The normal form of an equation's right side.
fn normal_equation(
    alloc: Global,
    equation: &pb_typing_tree::Equation,
) -> Result<Equation<'_>, AllocError>
    ensures right { IfOk result (λ X. formula_view X.right
        ≡ signed_form true (tree.formula_view equation.now.right)) }
    ensures loops { IfOk result (λ X. X.loops.now ≡ equation.now.loops.items) }
{
    let right = signed_form(alloc, Polarity::Positive, &equation.right)?;
    Ok(Equation {
        right,
        loops: &equation.loops,
    })
}
