//! The place of the enumerator that a term gives: of a name it is written, and of `if` it is chosen
//! as the enumerator is.

ghost use Rattle.std.specs.Prelude.{◌≡◌, length, IfOk};
ghost use Rattle.pb_protocol_packing.specs.Numbers as numbers;
ghost use Rattle.pb_protocol_packer.specs.View.{chosen_place, term_of, terms_of, name_bytes, texts_of};

use crate::builder::Builder;
use crate::enumerators::{place_among, place_of};
use crate::seen::is_choice;
use pb_base::both;
use pb_text_tree::{Argument, Name, Term, copy_term};
use std::alloc::AllocError;

/// The place of the enumerator that `if` chooses.
#[cycle(places)]
fn chosen_place(
    builder: Builder,
    enumerators: &[Name],
    arguments: &[Argument],
) -> Result<Term, AllocError>
    requires { length arguments.now ≡ 3 }
    ensures { IfOk result (λ t. term_of t
        ≡ chosen_place (texts_of enumerators.now) (terms_of arguments.now)) }
{
    let condition = copy_term(builder.alloc, &arguments[0].term)?;
    let chosen = place_number(builder, enumerators, &arguments[1].term);
    let (condition, chosen) = both(condition, chosen)?;
    let Ok(other) = place_number(builder, enumerators, &arguments[2].term) else {
        drop(condition);
        drop(chosen);
        return Err(AllocError);
    };
    builder.either(condition, chosen, other)
}

/// The place of an enumerator's name.
fn place_of_name(
    builder: Builder,
    enumerators: &[Name],
    name: &Name,
    term: &Term,
) -> Result<Term, AllocError>
    ensures { IfOk result (λ t. term_of t ≡ numbers.place_or
        (numbers.place_among 0 (texts_of enumerators.now) (name_bytes name.now))
        (numbers.place_of 0 (texts_of enumerators.now) (term_of term.now))) }
{
    match place_among(enumerators, &name.text) {
        Some(place) => Ok(builder.number(place as u64)),
        None => place_of(builder, enumerators, term),
    }
}

/// The place of the enumerator that a term gives.
#[cycle(places)]
pub(crate) fn place_number(
    builder: Builder,
    enumerators: &[Name],
    term: &Term,
) -> Result<Term, AllocError>
    ensures { IfOk result
        (λ t. term_of t ≡ numbers.place_number (texts_of enumerators.now) (term_of term.now)) }
{
    match term {
        Term::Name(name) => place_of_name(builder, enumerators, name, term),
        Term::Chain { first, links, .. } => match links.first() {
            Some(_) => place_of(builder, enumerators, term),
            None => place_number(builder, enumerators, first),
        },
        Term::Arithmetic { first, links } => match links.first() {
            Some(_) => place_of(builder, enumerators, term),
            None => place_number(builder, enumerators, first),
        },
        Term::Application {
            function,
            arguments,
        } => {
            if !is_choice(function) {
                return place_of(builder, enumerators, term);
            }
            if arguments.len() != 3 {
                return place_of(builder, enumerators, term);
            }
            chosen_place(builder, enumerators, arguments)
        }
        _ => place_of(builder, enumerators, term),
    }
}
