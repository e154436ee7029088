//! Arrays that are read, and the choice of an element by an index that isn't written.

ghost use Rattle.std.specs.Prelude.{◌≡◌, ◌+◌, ◌≤◌, ◌<◌, ℕ, suc, true, false, length, drop};
ghost use Rattle.std.specs.Prelude.{IfOk, if◌then◌else◌, map, codes, string_bytes, [], ◌∷◌};
ghost use Rattle.pb_text_tree.specs.declared.operator.Comparison.TheVariants as comparison;
ghost use Rattle.pb_text_meaning.specs.Erase.{of_comparison};
ghost use Rattle.pb_text_meaning.specs.Syntax as syntax;
ghost use Rattle.pb_text_meaning.specs.Functions.{named_function};
ghost use Rattle.pb_protocol_folding.specs.Folding.{folded, is_if};
ghost use Rattle.pb_protocol_folding.specs.View.{spec_of, term_of};
ghost use Rattle.pb_protocol_unfolder_terms.specs.Forms.{HasForm};
ghost use Rattle.pb_protocol_unfolder_terms.specs.Puts.{IsWrittenAs, choice_of};
ghost use Rattle.pb_protocol_unfolder_terms.specs.Unfolding.{IsUnfolded, name_in, operator_count};
ghost use Rattle.pb_protocol_unfolder_terms.specs.Values.{written_term};

use crate::form::{Form, is_same};
use crate::names::value_term;
use crate::pair::paired;
use crate::sorts::Variable;
use crate::unfolded::{Unfolded, name_of};
use crate::written::Written;
use pb_protocol_folding::{Folding, application_term, compared_term};
use pb_text_tree::{Argument, Comparison, Name, Place, Term, copy_term};
use std::alloc::{AllocError, Global};

/// An array, or a part of one, with an argument for each of its indices.
#[derive(Clone, Copy)]
pub(crate) struct Array<'a> {
    pub name: &'a Name,
    pub indices: &'a [Variable<'a>],
    pub arguments: &'a [Argument],
}

/// Which element of an array is meant by an index that isn't written: one of those at these values.
#[derive(Clone, Copy)]
pub(crate) struct Choices<'a> {
    /// The array with the indices and arguments behind this one.
    pub others: Array<'a>,
    /// The index, folded.
    pub index: &'a Term,
    /// How many operators the index has at least.
    pub operators: u32,
    /// Whether an earlier value is compared with the index in the choice.
    pub compared: bool,
    pub values: &'a [Written<'a>],
}

impl<'a> Array<'a> {
    /// The array with the indices and arguments behind the first ones.
    pub fn others(self) -> Array<'a>
        requires indices { 0 < length self.indices.now }
        requires arguments { 0 < length self.arguments.now }
        ensures name { result.name.now ≡ self.entry.name.now }
        ensures indices { result.indices.now ≡ drop 1 self.entry.indices.now }
        ensures arguments { result.arguments.now ≡ drop 1 self.entry.arguments.now }
    {
        Array {
            name: self.name,
            indices: &self.indices[1..],
            arguments: &self.arguments[1..],
        }
    }
}

impl Choices<'_> {
    /// How many operators an index takes that is known to have a value: where it is compared in the
    /// choice, it has taken its own. So what an index takes isn't lost with the comparisons that
    /// are folded away.
    pub fn operators_taken(self) -> u32
        ensures { result ≤ self.entry.operators + 2 }
    {
        if self.compared {
            return 0;
        }
        self.operators.saturating_add(2)
    }
}

/// The value that an unfolded term is written as, if it is one of these.
pub(crate) fn written_as<'a>(index: &Unfolded, values: &[Written<'a>]) -> Option<Written<'a>>
    ensures { (t : syntax.Term) → HasForm index.now.form (name_in index.now.term) t
        → IsWrittenAs result t (map written_term values.now) }
{
    let name = name_of(&index.term);
    for value in values {
        if is_same(index.form, name, *value) {
            return Some(*value);
        }
    }
    None
}

/// Whether a folded index is this value, folded.
pub(crate) fn equality(
    folding: &Folding<'_>,
    index: &Term,
    value: Written<'_>,
    place: Place,
) -> Result<Term, AllocError>
    ensures { (t : syntax.Term) (truth : _) →
        term_of index.now ≡ folded (spec_of folding.now.sorts.now) false t
        → IfOk result (λ c. term_of c ≡ folded (spec_of folding.now.sorts.now) truth
        (syntax.Term.Binary (of_comparison comparison.Equal) t (written_term value.entry))) }
{
    let left = copy_term(folding.alloc, index)?;
    let Ok(right) = value_term(folding, value, place, 0) else {
        drop(left);
        return Err(AllocError);
    };
    compared_term(folding, place, Comparison::Equal, left, right.term)
}

/// The function that chooses one of two, at a place.
pub(crate) fn choosing(alloc: Global, place: Place) -> Result<Name, AllocError>
    ensures { IfOk result (λ n. string_bytes n.text ≡ codes "if") }
{
    let text = "if".to_owned(alloc)?;
    Ok(Name { place, text })
}

/// The one of two unfolded terms that is chosen.
pub(crate) fn chosen(unfolded: Unfolded) -> Unfolded
    ensures { (folding : syntax.Spec) (f : syntax.Name) (c x y : syntax.Term)
        (n m : ℕ) (b truth : _) → is_if (named_function f) ≡ true
        → folded folding true c ≡ syntax.Term.Truth b
        → IsUnfolded folding false n (if b then x else y) unfolded
        → m ≤ n + suc (operator_count c)
        → IsUnfolded folding truth m (choice_of f c x y) result }
{
    Unfolded {
        term: unfolded.term,
        form: Form::Other,
        room: unfolded.room,
    }
}

/// Three values in order.
fn three<T: Drop>(alloc: Global, first: T, second: T, third: T) -> Result<Vec<T>, AllocError>
    ensures { IfOk result (λ all. all.items ≡ first ∷ second ∷ third ∷ []) }
{
    let mut all = Vec::new(alloc);
    all.push(first)?;
    all.push(second)?;
    all.push(third)?;
    Ok(all)
}

/// The choice of two unfolded terms by a folded condition, the right one behind the left one.
pub(crate) fn choice(
    folding: &Folding<'_>,
    function: Name,
    condition: Term,
    left: Unfolded,
    right: Unfolded,
) -> Result<Unfolded, AllocError>
    requires { is_if (named_function (string_bytes function.text)) ≡ true }
    ensures { (n m : ℕ) (c x y : syntax.Term) (truth : _) →
        term_of condition ≡ folded (spec_of folding.now.sorts.now) true c
        → IsUnfolded (spec_of folding.now.sorts.now) false n x left
        → IsUnfolded (spec_of folding.now.sorts.now) false left.room y right
        → m ≤ n + suc (operator_count c)
        → IfOk result (IsUnfolded (spec_of folding.now.sorts.now) truth m
        (choice_of (string_bytes function.text) c x y)) }
{
    let room = right.room;
    let place = function.place;
    let first = Argument {
        place,
        term: condition,
    };
    let second = Argument {
        place,
        term: left.term,
    };
    let third = Argument {
        place,
        term: right.term,
    };
    let (function, arguments) = paired(function, three(folding.alloc, first, second, third))?;
    let term = application_term(folding, function, arguments)?;
    Ok(Unfolded {
        term,
        form: Form::Other,
        room,
    })
}
