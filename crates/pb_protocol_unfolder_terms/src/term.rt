//! Unfolds a term of a protocol.

ghost use Rattle.std.specs.Prelude.{◌≡◌, length, IfErr};
ghost use Rattle.pb_text_tree.specs.Form.{term_form};
ghost use Rattle.pb_protocol_folding.specs.View as tree;
ghost use Rattle.pb_protocol_meaning.specs.Syntax.{Protocol};
ghost use Rattle.pb_protocol_meaning.specs.Steps.{data_of};
ghost use Rattle.pb_protocol_unfolding.specs.Unfolding.{unfolded_term};
ghost use Rattle.pb_protocol_unfolder_terms.specs.Contexts.{IsContext, folding_in, scope_in};
ghost use Rattle.pb_protocol_unfolder_terms.specs.Met.{Surroundings, at};
ghost use Rattle.pb_protocol_unfolder_terms.specs.Puts.{put};
ghost use Rattle.pb_protocol_unfolder_terms.specs.Tells.{IsFaultOf, scope_said, surroundings_in};
ghost use Rattle.pb_protocol_unfolder_terms.specs.TermFaults.{HasValues, IfFaultAt, IsFaultInTerm, scope_by};
ghost use Rattle.pb_protocol_unfolder_terms.specs.Unfolding.{Unfolds};

use crate::context::Context;
use crate::fault::UnfoldError;
use crate::level::Level;
use crate::scope::TermScope;
use crate::unfold::unfold;
use crate::unfolded::Unfolded;
use pb_base::MAX_OPERATORS;
use pb_text_tree::Term;

/// How many terms may be open, each within the one before or what a name in it stands for.
pub const MAX_LEVELS: u32 = 200;

/// A term by what the code has of a protocol.
fn unfold_by<'a>(
    context: &'a Context<'a>,
    scope: &'a TermScope<'a>,
    truth: bool,
    term: &'a Term,
) -> Result<Unfolded, UnfoldError>
    ensures term { Unfolds (folding_in context.now) truth MAX_OPERATORS
        (put context.now (length context.now.definitions.items) scope.now
        (tree.term_of term.now)) result }
    ensures faults { HasValues scope.now → IfErr result (IsFaultOf (surroundings_in context.now)
        (at MAX_LEVELS (length context.now.definitions.items) (scope_said context.now scope.now)
        (term_form term.now))) }
{
    let level = Level {
        truth,
        definitions: context.definitions.len(),
        room: MAX_OPERATORS as u32,
        depth: MAX_LEVELS,
    };
    unfold(context, scope, level, term)
}

/// A term with what its names stand for put in, folded: where its truth alone counts, or its value.
///
/// # Errors
/// There would be more than 8,192 operators, terms nest too deep, more than 8,192 values are
/// written out, an index isn't seen to stay inside its sort, or memory was refused.
pub fn unfold_term<'a>(
    context: &'a Context<'a>,
    scope: &'a TermScope<'a>,
    truth: bool,
    term: &'a Term,
) -> Result<Unfolded, UnfoldError>
    ensures term { (m : Protocol) → IsContext m context.now → Unfolds (data_of m) truth
        MAX_OPERATORS (unfolded_term m (scope_in m scope.now) (tree.term_of term.now)) result }
    ensures faults { (m : Surroundings) → surroundings_in context.now ≡ m → HasValues scope.now
        → IfErr result (IfFaultAt (IsFaultInTerm m (scope_by m scope.now) (term_form term.now))) }
{
    unfold_by(context, scope, truth, term)
}
