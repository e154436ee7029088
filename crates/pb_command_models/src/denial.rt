//! The text of a property's negation, explained: where the evidence that the property isn't
//! satisfied rests on a call outside the ranges, the negation decides whether the property is
//! false.
ghost use Rattle.std.specs.Prelude.{◌≡◌};
ghost use Rattle.pb_base.specs.OrMemory.{IfFault, raised};
ghost use Rattle.pb_model_properties.specs.Negations.{HasPropertyAt};
ghost use Rattle.pb_command_models.specs.Outcomes.{IsExcessBy, IsRule};
ghost use Rattle.pb_command_models.specs.Denials.{ExplainsNegation, IsExcessOf, IsFaultOfText};

use crate::explained::explained_at;
use crate::explained_finding::Asked;
use crate::negation::{InputWithNegation, excess_by, take_negation};
use pb_base::OrMemory;
use pb_command_faults::{PropertyExcess, SolveFault};
use pb_command_solver::{Context, Progress};
use pb_command_texts::ExplainedText;
use pb_model_properties::{ModelError, SolvedModel};
use std::thread::Threads;

/// What is solved in the place of a property's negation, and the negation's text, explained.
#[derive(Drop)]
pub(crate) struct Denial {
    pub solved: SolvedModel,
    pub explained: ExplainedText,
}

// How a negation is refused by this error.
fn refused_by(error: ModelError) -> OrMemory<PropertyExcess>
    requires { IfFault error IsRule }
    ensures { raised IsExcessBy error result }
{
    match error {
        OrMemory::Refused(fault) => OrMemory::Refused(excess_by(fault)),
        OrMemory::Memory => OrMemory::Memory,
    }
}

// How a negation is refused by this fault of its text.
fn excess_of_text(fault: SolveFault) -> PropertyExcess
    requires { IsFaultOfText fault }
    ensures { IsExcessOf fault result }
{
    match fault {
        SolveFault::Typing(broken) => PropertyExcess::NegationTyping(broken.rule),
        SolveFault::Property(large) => large.excess,
        _ => unreachable!(),
    }
}

// How a negation is refused by this error of its text.
fn unexplained_by(error: OrMemory<SolveFault>) -> OrMemory<PropertyExcess>
    requires { IfFault error IsFaultOfText }
    ensures { raised IsExcessOf error result }
{
    match error {
        OrMemory::Refused(fault) => OrMemory::Refused(excess_of_text(fault)),
        OrMemory::Memory => OrMemory::Memory,
    }
}

/// The text of the negation of the property at a place, explained.
///
/// # Errors
/// `NegationText` and `NegationTyping` say which rule the negation breaks, alone in the protocol;
/// `Code` and `Game` say what of its text is too large.
pub(crate) fn explained_negation<R: Threads + Sync, G: Progress + Sync>(
    context: &Context<'_, R, G>,
    input: &mut InputWithNegation<'_>,
    asked: Asked,
) -> Result<Denial, OrMemory<PropertyExcess>>
    requires { HasPropertyAt input.now asked.place }
    ensures { ExplainsNegation asked.place input.old input.new result }
{
    let solved = match take_negation(context.alloc, input, asked.place) {
        Ok(solved) => solved,
        Err(error) => return Err(refused_by(error)),
    };
    match explained_at(context, &solved, 0, asked.options) {
        Ok(explained) => Ok(Denial { solved, explained }),
        Err(error) => Err(unexplained_by(error)),
    }
}
