//! The check of a whole text.

ghost use Rattle.std.specs.Prelude.{◌≡◌, ◌++◌, [], MatchResult, OnOk, IfErr};
ghost use Rattle.pb_base.specs.OrMemory.{IfFault};
ghost use Rattle.pb_text_tree.specs.Form.{spec_form};
ghost use Rattle.pb_text_meaning.specs.Erase.{erase};
ghost use Rattle.pb_typing_declarations.specs.Faults.{IsAmong};
ghost use Rattle.pb_typing_declarations.specs.View.{text_of};
ghost use Rattle.pb_typing_rules.specs.Faults.{faults, initial_faults, right_faults};
ghost use Rattle.pb_typing_rules.specs.WellTyped.{IsWellTypedWithin};
ghost use Rattle.pb_sorts.specs.Counting.{instance_limit};
ghost use Rattle.pb_sorts.specs.declared.counting.Counting.TheVariants.{Declared};
ghost use Rattle.pb_typing.specs.Checked.{IsChecked};

use crate::equation::check_rights;
use crate::initial::check_initial;
use crate::typed::Typed;
use pb_sorts::{Counting, Layout};
use pb_text_tree::Spec;
use pb_typing_declarations::{Declarations, TypeError};
use pb_typing_tree::{Equation, Initial};
use std::alloc::Global;

/// Accepts a text exactly where it is well typed and positive within the limits (Groote and Mousavi
/// 2014: kinds of terms, and predicate formulas that are monotone since predicate variables stand
/// under an even number of negations). Each declared instance counts.
///
/// # Errors
/// A refusal hands the text back with a rule that fails at its place; where several fail, any one
/// of them. `TypeError::Memory` comes only where memory was refused.
pub fn check(alloc: Global, spec: Spec) -> Result<Typed, (Spec, TypeError)>
    ensures kept { MatchResult result (λ typed. typed.spec ≡ spec) (λ refused. refused.0 ≡ spec) }
    ensures accepted { OnOk result
        (IsWellTypedWithin (instance_limit Declared) (erase (spec_form spec))) }
    ensures fails { IfErr result (λ refused.
        IsAmong (faults (instance_limit Declared) (spec_form spec)) refused.1) }
    ensures ill_typed { IfErr result (λ refused. IfFault refused.1
        (λ _. ¬ IsWellTypedWithin (instance_limit Declared) (erase (spec_form spec)))) }
{
    check_counting(alloc, spec, Counting::Declared)
}

/// The same, by which instances count: where those do that are reached, a text may declare more.
///
/// # Errors
/// As `check`, where `counting.limit()` instances may be declared (T12).
pub fn check_counting(
    alloc: Global,
    spec: Spec,
    counting: Counting,
) -> Result<Typed, (Spec, TypeError)>
    ensures kept { MatchResult result (λ typed. typed.spec ≡ spec) (λ refused. refused.0 ≡ spec) }
    ensures accepted { OnOk result
        (IsWellTypedWithin (instance_limit counting) (erase (spec_form spec))) }
    ensures fails { IfErr result (λ refused.
        IsAmong (faults (instance_limit counting) (spec_form spec)) refused.1) }
    ensures ill_typed { IfErr result (λ refused. IfFault refused.1
        (λ _. ¬ IsWellTypedWithin (instance_limit counting) (erase (spec_form spec)))) }
{
    match check_spec(alloc, &spec, counting) {
        Ok(checked) => Ok(Typed {
            spec,
            layout: checked.layout,
            equations: checked.equations,
            initial: checked.initial,
        }),
        Err(error) => Err((spec, error)),
    }
}

/// What the check of a text finds.
#[derive(Drop)]
struct Checked {
    layout: Layout,
    equations: Vec<Equation>,
    initial: Initial,
}

/// Checks the declarations, then each right side, then the initial instance.
fn check_spec(alloc: Global, spec: &Spec, counting: Counting) -> Result<Checked, TypeError>
    ensures { MatchResult result
        (λ checked. (faults (instance_limit counting) (spec_form spec.now) ≡ [])
        × IsChecked (spec_form spec.now) checked)
        (IsAmong (faults (instance_limit counting) (spec_form spec.now))) }
{
    let declarations = Declarations::read(alloc, spec, counting)?;
    check_declared(alloc, &declarations, spec)
}

/// Checks each right side, then the initial instance, by what the text declares.
fn check_declared(
    alloc: Global,
    declarations: &Declarations<'_>,
    spec: &Spec,
) -> Result<Checked, TypeError>
    requires { text_of declarations.now ≡ spec_form spec.now }
    ensures { MatchResult result
        (λ checked. (right_faults (erase (spec_form spec.now)) (spec_form spec.now).equations
        ++ initial_faults (erase (spec_form spec.now)) (spec_form spec.now).initial ≡ [])
        × IsChecked (spec_form spec.now) checked)
        (IsAmong (right_faults (erase (spec_form spec.now)) (spec_form spec.now).equations
        ++ initial_faults (erase (spec_form spec.now)) (spec_form spec.now).initial)) }
{
    let layout = declarations.layout(alloc)?;
    let equations = check_rights(alloc, declarations, spec, &layout)?;
    let initial = check_initial(alloc, declarations, spec, &layout)?;
    Ok(Checked {
        layout,
        equations,
        initial,
    })
}
