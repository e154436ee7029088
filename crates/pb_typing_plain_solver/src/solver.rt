//! The nested solution, equation by equation.

ghost use Rattle.std.specs.Prelude.{◌≡◌, ◌≤◌, if◌then◌else◌, true, false, length, drop, IfOk, OnOk};
ghost use Rattle.pb_base.specs.declared.limits.TheConstants.{MAX_INSTANCES};
ghost use Rattle.pb_fixpoint.specs.Solution.{solution};
ghost use Rattle.pb_text_tree.specs.Form.{spec_form};
ghost use Rattle.pb_sorts.specs.Layout.{count_of};
ghost use Rattle.pb_text_meaning.specs.Erase.{erase};
ghost use Rattle.pb_text_meaning.specs.Meaning.{answer, equations_of};
ghost use Rattle.pb_typing_values.specs.Environment.{environment_of};
ghost use Rattle.pb_typing_plain_solver.specs.Bounds.{AreBounds};
ghost use Rattle.pb_typing_plain_solver.specs.Side.{side_of};

use crate::set::{improve, same_set, take_set};
use crate::turn::Turn;
use pb_fixpoint::Sign;
use pb_sorts::{Instance, Tuple};
use pb_typing::Typed;
use std::alloc::{AllocError, Global};

/// Two lists in the order in which sets move towards the fixpoint of a sign, where the first has
/// the lesser sets and the second the greater ones; or of two in that order the lesser first.
fn directed<'a>(sign: Sign, least: &'a [bool], greatest: &'a [bool]) -> (&'a [bool], &'a [bool])
    ensures near { result.0.now ≡ (if side_of sign then least.now else greatest.now) }
    ensures far { result.1.now ≡ (if side_of sign then greatest.now else least.now) }
{
    match sign {
        Sign::Mu => (least, greatest),
        Sign::Nu => (greatest, least),
    }
}

/// Brings an environment to the solution of the equations from `first` on under it.
///
/// The sets of these equations lie between `least` and `greatest`; where both are the same, so is
/// the set. Elsewhere the set moves from its bound on the near side, where the steps of its sign
/// begin, towards the fixpoint, at most as often as it has instances; a step that changes nothing
/// has reached it. What the equations behind had at one step is a near bound of what they get at
/// the next one.
fn solve_from(
    typed: &Typed,
    first: usize,
    truths: &mut [bool],
    least: &[bool],
    greatest: &[bool],
) -> Result<(), AllocError>
    requires within { first ≤ length typed.now.layout }
    requires count { length truths.old ≡ count_of typed.now.layout }
    requires lower { length least.now ≡ count_of typed.now.layout }
    requires upper { length greatest.now ≡ count_of typed.now.layout }
    requires least { AreBounds true (drop first
        (equations_of (erase (spec_form typed.now.spec))))
        (environment_of (erase (spec_form typed.now.spec)) truths.old)
        (environment_of (erase (spec_form typed.now.spec)) least.now) }
    requires greatest { AreBounds false (drop first
        (equations_of (erase (spec_form typed.now.spec))))
        (environment_of (erase (spec_form typed.now.spec)) truths.old)
        (environment_of (erase (spec_form typed.now.spec)) greatest.now) }
    ensures { OnOk result (environment_of (erase (spec_form typed.now.spec)) truths.new
        ≡ solution (drop first (equations_of (erase (spec_form typed.now.spec))))
        (environment_of (erase (spec_form typed.now.spec)) truths.old)) }
{
    if first == typed.layout.equation_count() {
        return Ok(());
    }
    let turn = Turn {
        typed,
        equation: first,
    };
    if same_set(&turn, least, greatest) {
        take_set(&turn, least, truths);
        return solve_from(typed, first + 1, truths, least, greatest);
    }
    let alloc = *typed.equations.allocator();
    let sign = typed.spec.equations[first].sign;
    let (near, far) = directed(sign, least, greatest);
    take_set(&turn, near, truths);
    let mut kept = Vec::from_slice(alloc, near)?;
    for _step in 0..typed.layout.size(first) {
        let mut below = Vec::from_slice(alloc, truths)?;
        let (lower, upper) = directed(sign, &kept, far);
        solve_from(typed, first + 1, &mut below, lower, upper)?;
        let changed = improve(&turn, truths, &below)?;
        if !changed {
            truths.copy_from_slice(&below);
            return Ok(());
        }
        kept = below;
    }
    let (lower, upper) = directed(sign, &kept, far);
    solve_from(typed, first + 1, truths, lower, upper)
}

/// Whether the initial instance is true in the nested fixpoint solution of the text's equations
/// (Groote and Willemse 2005).
///
/// Recursion goes as deep as there are equations, and as formulas nest. Sets of one sign are kept
/// from one step of an outer equation to the next, so that the time grows exponentially with the
/// number of alternations alone. A set has a truth for each declared instance.
///
/// # Errors
/// Memory was refused.
pub fn solve(alloc: Global, typed: &Typed) -> Result<bool, AllocError>
    requires { count_of typed.now.layout ≤ MAX_INSTANCES }
    ensures { IfOk result (λ truth. truth ≡ answer (erase (spec_form typed.now.spec))) }
{
    let count = typed.layout.count() as usize;
    let least = vec![in alloc; false; count]?;
    let greatest = vec![in alloc; true; count]?;
    let mut truths = vec![in alloc; false; count]?;
    solve_from(typed, 0, &mut truths, &least, &greatest)?;
    let instance = Instance {
        equation: typed.initial.equation,
        values: Tuple::from_slice(alloc, &typed.initial.values)?,
    };
    match typed.layout.number(&instance) {
        Some(number) => Ok(truths[number as usize]),
        // The text asks for one of its instances.
        None => unreachable!(),
    }
}
