//! What stands in the brackets of a modality, and its node.

ghost use Rattle.std.specs.Prelude.{◌≡◌, IfOk};
ghost use Rattle.pb_text_terms.specs.Readers.{ReadsSome};
ghost use Rattle.pb_protocol_tree.specs.Form.{FormulaForm, formula_form, step_set_form};
ghost use Rattle.pb_model_text.specs.Reading as reading;

use crate::step_set::step_set;
use pb_base::both;
use pb_model_tree::Modality;
use pb_protocol_tree::{Formula, StepSet};
use pb_text_lexer::fault::ReadingError;
use pb_text_lexer::input::Input;
use pb_text_lexer::kind::Kind;
use pb_text_tree::Place;
use std::alloc::{AllocError, Global};

/// The bracket behind the steps of a modality.
fn closing(modality: Modality) -> Kind
    ensures { result ≡ reading.closing modality }
{
    match modality {
        Modality::Box => Kind::CloseSquare,
        Modality::Diamond => Kind::Greater,
    }
}

/// The node of a modality.
pub fn modal_node(
    alloc: Global,
    place: Place,
    modality: Modality,
    steps: StepSet,
    operand: Formula,
) -> Result<Formula, AllocError>
    ensures { IfOk result (λ f. formula_form f
        ≡ FormulaForm.modal modality place (step_set_form steps) (formula_form operand)) }
{
    let (steps, operand) = both(steps, Box::new(alloc, operand))?;
    Ok(Formula::Modal {
        place,
        modality,
        steps,
        operand,
    })
}

/// The steps of a modality, and the bracket behind them.
#[inline(never)]
pub fn modal_steps(
    input: &mut Input<'_>,
    alloc: Global,
    depth: u32,
    modality: Modality,
) -> Result<StepSet, ReadingError>
    ensures { ReadsSome step_set_form (reading.modal_steps modality (reading.step_set depth))
        input.old result input.new }
{
    let steps = step_set(input, alloc, depth)?;
    let (steps, _) = both(steps, input.expect(closing(modality)))?;
    Ok(steps)
}
