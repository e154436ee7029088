//! Texts that are accepted.

ghost use Rattle.std.specs.Prelude.{◌≡◌, true};
ghost use Rattle.pb_text_tree.specs.Form.{spec_form};
ghost use Rattle.pb_text_meaning.specs.Erase.{erase};
ghost use Rattle.pb_typing_tree.specs.Calls.{text_calls, tree_calls};
ghost use Rattle.pb_typing_tree.specs.Elaboration.{elaborated_equations};
ghost use Rattle.pb_typing_tree.proofs.FormulaSet.{formulas-prop, shapes-prop};
ghost use Rattle.pb_typing_tree.specs.InitialPlace.{IsInitial};
ghost use Rattle.pb_typing_tree.specs.Loops.{all_loops};
ghost use Rattle.pb_typing_tree.specs.View.{loop_shapes, right_views};
ghost use Rattle.pb_typing.specs.Typed.{is_faultless, IsLayout};

use pb_sorts::Layout;
use pb_text_tree::Spec;
use pb_typing_tree::{Equation, Initial};

/// A text that is well typed and positive, within the limits, with the layout of its equations'
/// instances, the typed trees of its equations, and the instance that it asks for.
#[derive(Drop)]
pub struct Typed {
    pub spec: Spec,
    pub layout: Layout,
    /// One for each equation of the text, in order.
    pub equations: Vec<Equation>,
    pub initial: Initial,
    pub ghost faultless: { is_faultless (spec_form spec) ≡ true },
    pub ghost laid_out: { IsLayout (erase (spec_form spec)) layout },
    pub ghost rights: { right_views equations.items
        ≡ elaborated_equations (erase (spec_form spec))
        (erase (spec_form spec)).equations } by { formulas-prop _ _ },
    pub ghost loops: { loop_shapes equations.items
        ≡ all_loops (erase (spec_form spec)) } by { shapes-prop _ _ },
    pub ghost calls: { tree_calls equations.items ≡ text_calls (spec_form spec).equations },
    pub ghost asked: { IsInitial (erase (spec_form spec)) initial.equation initial.values.items },
}
