//! The model that is solved in a protocol's place, with the names by which users are told of it.

ghost use Rattle.std.specs.Prelude.{◌≡◌, map, string_bytes, IfOk};
ghost use Rattle.pb_model_tree.specs.Form.{model_form};
ghost use Rattle.pb_model_words.specs.View.{vocabulary_of};
ghost use Rattle.pb_model_properties.specs.Words.{impossible_in, words_in, words_with};

use pb_model_tree::Model;
use pb_model_typing::TypedModel;
use pb_model_words::{Vocabulary, plain_vocabulary, told_vocabulary};
use pb_protocol_packer::Group;
use pb_text_tree::Place;
use std::alloc::{AllocError, Global};

/// What an unfolded model's variables and steps are called, in order, where the names of the steps
/// stand in the protocol, and which of the protocol's steps come to none: with none of their values
/// may they be taken.
#[derive(Drop)]
pub struct ToldNames {
    pub variables: Vec<String>,
    pub steps: Vec<String>,
    pub places: Vec<Place>,
    pub impossible: Vec<String>,
}

/// A flat model whose variables are packed, and the groups that they are packed in.
#[derive(Drop)]
pub struct UnpackedModel {
    pub model: Model,
    pub groups: Vec<Group>,
}

/// The model that is solved in a protocol's place: its own where it is plain, else the unfolded one
/// with the protocol's names; or that model with its variables packed.
#[derive(Drop)]
pub struct SolvedModel {
    pub typed: TypedModel,
    pub names: Option<ToldNames>,
    pub unpacked: Option<UnpackedModel>,
}

/// The words in which a flat model is told: its own, or these names.
fn flat_words<'a>(
    alloc: Global,
    model: &'a Model,
    names: &'a Option<ToldNames>,
) -> Result<Vocabulary<'a>, AllocError>
    ensures { IfOk result (λ v. vocabulary_of v ≡ words_with (model_form model.now) names.now) }
{
    match names {
        None => plain_vocabulary(alloc, model),
        Some(names) => told_vocabulary(alloc, model, &names.variables, &names.steps),
    }
}

impl SolvedModel {
    /// The names of the protocol's steps that come to none in the model, in order.
    pub fn impossible_steps(&self) -> &[String]
        ensures { map string_bytes result.now ≡ impossible_in self.now.names }
    {
        match &self.names {
            None => &[],
            Some(names) => &names.impossible,
        }
    }
}

/// The words in which a solved model is told.
///
/// # Errors
/// Memory was refused.
pub fn words_of(alloc: Global, solved: &SolvedModel) -> Result<Vocabulary<'_>, AllocError>
    ensures { IfOk result (λ v. vocabulary_of v ≡ words_in solved.now) }
{
    match &solved.unpacked {
        None => flat_words(alloc, &solved.typed.model, &solved.names),
        Some(unpacked) => {
            let words = flat_words(alloc, &unpacked.model, &solved.names)?;
            Ok(words.packed(&unpacked.groups))
        }
    }
}
