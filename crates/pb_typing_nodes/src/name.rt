//! Names in data: variables and enumerators.

ghost use Rattle.std.specs.Prelude.{◌≡◌, Contains};
ghost use Rattle.pb_text_tree.specs.Form.{named};
ghost use Rattle.pb_typing_rules.specs.Faults.{name_faults, unknown_faults};
ghost use Rattle.pb_typing_rules.specs.Scope.{named_shape};
ghost use Rattle.pb_typing_rules.specs.Shapes.{is_limited};
ghost use Rattle.pb_typing_rules.specs.Term.{shape_or_unknown};
ghost use Rattle.pb_typing_declarations.specs.Faults.{unless};
ghost use Rattle.pb_typing_declarations.specs.View.{spec_of};
ghost use Rattle.pb_typing_tree.specs.Elaboration as elaboration;
ghost use Rattle.pb_typing_tree.specs.View.{shape_view};
ghost use Rattle.pb_typing_nodes.specs.Contexts.{scope_in, slots_in, text_in};
ghost use Rattle.pb_typing_nodes.specs.Elaborated.{Resolves};
ghost use Rattle.pb_typing_nodes.specs.Found.{Finds};

use crate::context::Context;
use crate::operation::fault;
use crate::scope::find_variable;
use crate::shape::is_limited;
use pb_text_tree::{Name, Place};
use pb_typing_declarations::{Declarations, TypingFault, TypingRule, require};
use pb_typing_tree::{Argument as TypedTerm, Enumerator, Shape, Term};

/// A variable in scope, else an enumerator.
///
/// # Errors
/// The name isn't declared (T01) or is a predicate variable's (T07), or its values aren't within
/// 2^62 (T10).
pub fn check_name(context: &Context<'_, '_, '_>, name: &Name) -> Result<TypedTerm, TypingFault>
    ensures { Resolves
        (name_faults (text_in context.now)
        (named_shape (text_in context.now) (scope_in context.now) (named name.now).text)
        (named name.now))
        (shape_or_unknown (named_shape (text_in context.now) (scope_in context.now)
        (named name.now).text))
        (elaboration.term_of_name (text_in context.now) (slots_in context.now (named name.now).text)
        (named name.now).text) result }
{
    if let Some(variable) = find_variable(context.scope, &name.text) {
        let shape = limited(variable.shape, name.place)?;
        return Ok(TypedTerm {
            term: Term::Slot(variable.slot),
            shape,
        });
    }
    match context.declarations.enumerator(&name.text) {
        Some(found) => {
            let places = Shape::Places {
                sort: found.sort,
                count: found.count,
            };
            let shape = limited(places, name.place)?;
            let enumerator = Enumerator {
                sort: found.sort,
                place: found.place,
            };
            Ok(TypedTerm {
                term: Term::Enumerator(enumerator),
                shape,
            })
        }
        None => Err(unknown(context.declarations, name)),
    }
}

/// A shape whose values are within 2^62 (T10).
fn limited(shape: Shape, place: Place) -> Result<Shape, TypingFault>
    ensures { Finds (unless (is_limited (shape_view shape)) TypingRule.LargeInterval place)
        (shape_view shape) result }
{
    require(is_limited(&shape), TypingRule::LargeInterval, place)?;
    Ok(shape)
}

/// What is wrong with a name in data that stands for nothing there: it isn't declared (T01), or is
/// a predicate variable's (T07).
pub(crate) fn unknown(declarations: &Declarations<'_>, name: &Name) -> TypingFault
    ensures { Contains (unknown_faults (spec_of declarations.now) (named name.now)) result }
{
    match declarations.equation(&name.text) {
        Some(_) => fault(TypingRule::PredicateInData, name.place),
        None => fault(TypingRule::UnknownName, name.place),
    }
}
