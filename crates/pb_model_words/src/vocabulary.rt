//! The words in which a model is told: what its variables and steps are called.

ghost use Rattle.std.specs.Prelude.{◌≡◌, IfOk, map, string_bytes};
ghost use Rattle.pb_model_tree.specs.Form.{model_form, step_form};
ghost use Rattle.pb_protocol_packer.specs.Groups.{groups_in};
ghost use Rattle.pb_model_words.specs.Vocabulary as words;
ghost use Rattle.pb_model_words.specs.View.{told_step_said, variable_said, vocabulary_of};

use crate::variables::{Variable, variables_of};
use pb_model_tree::{Model, Step};
use pb_protocol_packer::Group;
use pb_text_tree::{Place, SortDeclaration, Variables};
use std::alloc::{AllocError, Global};

/// A step by what it is called, with the place of its name and its own variables.
#[derive(Clone, Copy)]
pub(crate) struct ToldStep<'a> {
    pub name: &'a str,
    pub place: Place,
    pub variables: &'a [Variables],
}

/// The words in which a model is told: its sorts, and what its variables and steps are called. The
/// states of which it is told may have these variables packed in groups.
#[derive(Drop)]
pub struct Vocabulary<'a> {
    pub(crate) sorts: &'a [SortDeclaration],
    pub(crate) variables: Vec<Variable<'a>>,
    pub(crate) steps: Vec<ToldStep<'a>>,
    pub(crate) groups: Option<&'a [Group]>,
}

impl<'a> Vocabulary<'a> {
    /// The same words, of states in which the variables are packed in these groups.
    pub fn packed(self, groups: &'a [Group]) -> Vocabulary<'a>
        ensures { vocabulary_of result
            ≡ words.packed_vocabulary (groups_in groups.now) (vocabulary_of self.entry) }
    {
        Vocabulary {
            sorts: self.sorts,
            variables: self.variables,
            steps: self.steps,
            groups: Some(groups),
        }
    }
}

/// The steps, by their own names.
fn own_steps(alloc: Global, steps: &[Step]) -> Result<Vec<ToldStep<'_>>, AllocError>
    ensures { IfOk result (λ told. map told_step_said told.items
        ≡ map words.told_step (map step_form steps.now)) }
{
    let mut told = Vec::new(alloc);
    for step in steps {
        told.push(ToldStep {
            name: step.name.text.as_str(),
            place: step.name.place,
            variables: &step.variables,
        })?;
    }
    Ok(told)
}

/// A model in its own words.
///
/// # Errors
/// Memory was refused.
pub fn plain_vocabulary(alloc: Global, model: &Model) -> Result<Vocabulary<'_>, AllocError>
    ensures { IfOk result
        (λ v. vocabulary_of v ≡ words.plain_vocabulary (model_form model.now)) }
{
    let variables = variables_of(alloc, &model.state)?;
    let steps = own_steps(alloc, &model.steps)?;
    Ok(Vocabulary {
        sorts: &model.sorts,
        variables,
        steps,
        groups: None,
    })
}

/// The variables, by these names.
fn called_variables<'a>(
    alloc: Global,
    names: &'a [String],
    variables: &[Variable<'a>],
) -> Result<Vec<Variable<'a>>, AllocError>
    ensures { IfOk result (λ told. map variable_said told.items
        ≡ words.called_variables (map string_bytes names.now) (map variable_said variables.now)) }
{
    let mut told = Vec::new(alloc);
    for k in 0..names.len().min(variables.len()) {
        told.push(Variable {
            name: names[k].as_str(),
            place: variables[k].place,
            sort: variables[k].sort,
        })?;
    }
    Ok(told)
}

/// The steps, by these names.
fn called_steps<'a>(
    alloc: Global,
    names: &'a [String],
    steps: &'a [Step],
) -> Result<Vec<ToldStep<'a>>, AllocError>
    ensures { IfOk result (λ told. map told_step_said told.items
        ≡ words.called_steps (map string_bytes names.now) (map step_form steps.now)) }
{
    let mut told = Vec::new(alloc);
    for k in 0..names.len().min(steps.len()) {
        told.push(ToldStep {
            name: names[k].as_str(),
            place: steps[k].name.place,
            variables: &steps[k].variables,
        })?;
    }
    Ok(told)
}

/// A model whose variables and steps are called by these names, in order.
///
/// # Errors
/// Memory was refused.
pub fn told_vocabulary<'a>(
    alloc: Global,
    model: &'a Model,
    variables: &'a [String],
    steps: &'a [String],
) -> Result<Vocabulary<'a>, AllocError>
    ensures { IfOk result (λ v. vocabulary_of v ≡ words.told_vocabulary (model_form model.now)
        (map string_bytes variables.now) (map string_bytes steps.now)) }
{
    let own = variables_of(alloc, &model.state)?;
    let variables = called_variables(alloc, variables, &own)?;
    let steps = called_steps(alloc, steps, &model.steps)?;
    Ok(Vocabulary {
        sorts: &model.sorts,
        variables,
        steps,
        groups: None,
    })
}
