//! What is found of properties, by what becomes of their texts and of those of their negations.
ghost use Rattle.std.specs.Prelude.{◌≡◌, Bool, true, Contains, IfOk};
ghost use Rattle.std.specs.List.{All};
ghost use Rattle.pb_model_properties.specs.Negations.{HasPropertyAt};
ghost use Rattle.pb_command_models.specs.Models.{HasModel};
ghost use Rattle.pb_command_models.specs.Outcomes.{AreFoundByTexts, AreSatisfied, FindsByModule};
ghost use Rattle.pb_command_models.specs.Outcomes.{FindsByOutcome, FindsByText, IsDecisionBy};
ghost use Rattle.pb_command_models.specs.Outcomes.{IsDeniedAt, IsModuleAt, IsOutcomeAt, IsTextAt};

use crate::finding::{Finding, PropertyFinding};
use crate::negation::{InputWithNegation, negation_module};
use crate::outcome::{AskedOutcome, Outcome, answered, early_of, outcome_of};
use crate::property_module::{AskedModule, PropertyModule, asked_module};
use crate::property_text::AskedText;
use pb_command_solver::{Context, Early, Progress, SolveOptions, answer_early};
use pb_command_texts::ShortInput;
use pb_model_properties::Verdict;
use pb_report::Answer;
use pb_sorts::Counting;
use std::alloc::AllocError;
use std::thread::Threads;

/// How texts are solved, and whether counts and symmetry are requested.
#[derive(Clone, Copy)]
pub(crate) struct DecisionOptions {
    pub solving: SolveOptions,
    pub counts: bool,
    pub symmetry: bool,
}

/// Whether the instances nearest to the initial one of the negation's text show that the negation
/// is satisfied. They don't where it is refused.
///
/// # Errors
/// Memory was refused.
pub(crate) fn is_denied<R: Threads + Sync, G: Progress + Sync>(
    context: &Context<'_, R, G>,
    input: &mut InputWithNegation<'_>,
    place: usize,
    options: SolveOptions,
) -> Result<bool, AllocError>
    requires { HasPropertyAt input.now place }
    ensures same { input.new ≡ input.old }
    ensures denied { IfOk result (λ denied. denied ≡ true → IsDeniedAt input.old place) }
{
    let PropertyModule::Verified(verified) = negation_module(context.alloc, input, place)? else {
        return Ok(false);
    };
    let early = answer_early(context, &verified, Counting::Reached, options)?;
    match early.truth() {
        Some(true) => Ok(true),
        _ => Ok(false),
    }
}

// What the negation decides of a property that has this answer.
fn decision<R: Threads + Sync, G: Progress + Sync>(
    context: &Context<'_, R, G>,
    negation: &PropertyModule,
    answer: Answer,
    options: SolveOptions,
) -> Result<Finding, AllocError>
    ensures { IfOk result (IsDecisionBy negation.now answer) }
{
    let verified = match negation {
        PropertyModule::TooLarge(excess) => return Ok(Finding::Refused(*excess)),
        PropertyModule::Verified(verified) => verified,
    };
    match answered(context, verified, options)? {
        Outcome::TooLarge(excess) => Ok(Finding::Refused(excess)),
        Outcome::Answered(second) => {
            let verdict = if second.truth {
                Verdict::False
            } else {
                Verdict::Unknown
            };
            Ok(Finding::Decided(verdict, answer))
        }
    }
}

/// What is found of a property by what becomes of its text, and of that of its negation where the
/// verdict needs it.
///
/// # Errors
/// Memory was refused.
pub(crate) fn decided<R: Threads + Sync, G: Progress + Sync>(
    context: &Context<'_, R, G>,
    input: &mut InputWithNegation<'_>,
    asked: AskedOutcome,
    options: SolveOptions,
) -> Result<Finding, AllocError>
    requires { HasModel input.now (λ model. IsOutcomeAt model asked) }
    ensures { (counts : Bool) → FindsByOutcome asked counts input.old input.new result }
{
    match asked.outcome {
        Outcome::TooLarge(excess) => Ok(Finding::Refused(excess)),
        Outcome::Answered(answer) => {
            if answer.truth {
                return Ok(Finding::Decided(Verdict::True, answer));
            }
            if answer.cut == 0 {
                return Ok(Finding::Decided(Verdict::False, answer));
            }
            let negation = negation_module(context.alloc, input, asked.place)?;
            decision(context, &negation, answer, options)
        }
    }
}

// What is found of a property, by all instances of its text.
fn decided_by_all<R: Threads + Sync, G: Progress + Sync>(
    context: &Context<'_, R, G>,
    input: &mut InputWithNegation<'_>,
    asked: &AskedModule,
    options: SolveOptions,
) -> Result<Finding, AllocError>
    requires { HasModel input.now (λ model. IsModuleAt model asked.now) }
    ensures { (counts : Bool) → FindsByModule asked.now counts input.old input.new result }
{
    let outcome = outcome_of(context, &asked.compiled, options)?;
    let place = asked.place;
    let known = AskedOutcome { place, outcome };
    decided(context, input, known, options)
}

// What is found of a property, by the module of its text. Where counts aren't asked for, the
// instances nearest to the initial one are tried first: those of the text, and where they show that
// it isn't satisfied, those of its negation's.
fn finding_by<R: Threads + Sync, G: Progress + Sync>(
    context: &Context<'_, R, G>,
    input: &mut InputWithNegation<'_>,
    asked: &AskedModule,
    options: DecisionOptions,
) -> Result<Finding, AllocError>
    requires { HasModel input.now (λ model. IsModuleAt model asked.now) }
    ensures { FindsByModule asked.now options.counts input.old input.new result }
{
    if options.counts {
        return decided_by_all(context, input, asked, options.solving);
    }
    let place = asked.place;
    match early_of(context, &asked.compiled, options.solving)? {
        Early::Unknown => decided_by_all(context, input, asked, options.solving),
        Early::Whole(answer) => {
            let outcome = Outcome::Answered(answer);
            let known = AskedOutcome { place, outcome };
            decided(context, input, known, options.solving)
        }
        Early::Shown(true) => Ok(Finding::Shown(true)),
        Early::Shown(false) => {
            let denied = is_denied(context, input, place, options.solving)?;
            if denied {
                return Ok(Finding::Shown(false));
            }
            decided_by_all(context, input, asked, options.solving)
        }
    }
}

// Whether a place is among these.
fn is_among(places: &[usize], place: usize) -> bool
    ensures { result ≡ true → Contains places.now place }
{
    for known in places {
        if *known == place {
            return true;
        }
    }
    false
}

// What is found of a property, by its text. Where counts aren't asked for and the property is known
// to be satisfied, there is no more to do.
fn finding_of_text<R: Threads + Sync, G: Progress + Sync>(
    context: &Context<'_, R, G>,
    input: &mut InputWithNegation<'_>,
    asked: AskedText,
    satisfied: &[usize],
    options: DecisionOptions,
) -> Result<PropertyFinding, AllocError>
    requires { HasModel input.now
        (λ model. IsTextAt model asked × AreSatisfied satisfied.now model) }
    ensures { FindsByText asked satisfied.now options.counts input.old input.new result }
{
    let place = asked.place;
    if !options.counts && is_among(satisfied, place) {
        drop(asked);
        let finding = Finding::Shown(true);
        return Ok(PropertyFinding { place, finding });
    }
    let made = asked_module(context.alloc, asked)?;
    let finding = finding_by(context, input, &made, options)?;
    Ok(PropertyFinding { place, finding })
}

/// What is found of each property, by its text. The properties at these places are satisfied.
///
/// # Errors
/// Memory was refused.
pub(crate) fn findings_of<R: Threads + Sync, G: Progress + Sync>(
    context: &Context<'_, R, G>,
    input: ShortInput<'_>,
    texts: Vec<AskedText>,
    satisfied: &[usize],
    options: DecisionOptions,
) -> Result<Vec<PropertyFinding>, AllocError>
    requires { HasModel input.bytes.now
        (λ model. All (IsTextAt model) texts.items × AreSatisfied satisfied.now model) }
    ensures { IfOk result (λ findings. AreFoundByTexts options.counts input.entry.bytes.now
        texts.items satisfied.now findings.items) }
{
    let mut asked_input = InputWithNegation::new(input);
    let mut findings = Vec::new(context.alloc);
    'texts: for asked in texts {
        let found = finding_of_text(context, &mut asked_input, asked, satisfied, options)?;
        findings.push(found)?;
    }
    Ok(findings)
}
