//! What stands below `val`, built bottom up: data without quantifiers, or the formula as which data
//! with quantifiers is read; and operands of one connective joined.

ghost use Rattle.std.specs.Prelude.{◌≡◌, ◌++◌, ◌∷◌, [], List, IfOk, map};
ghost use Rattle.pb_text_tree.specs.declared.operator.Connective as connectives;
ghost use Rattle.pb_typing_declarations.specs.Shapes as model;
ghost use Rattle.pb_typing_tree.specs.Tree.{Test};
ghost use Rattle.pb_typing_tree.specs.View.{chained_formula, formula_view, formula_views, shape_view};
ghost use Rattle.pb_typing_tree.specs.View.{term_views};
ghost use Rattle.pb_typing.specs.Value as values;
ghost use Rattle.pb_typing.specs.Value.{as_formula, folded, joined};
ghost use Rattle.pb_typing.specs.ValueView.{pieces, value_shape, value_view, value_views};

use pb_text_tree::Connective;
use pb_typing_nodes::operands::{paired, with_last};
use pb_typing_tree::{Argument as TypedTerm, Formula, Shape, Term};
use std::alloc::{AllocError, Global};

/// What stands below `val`: data without quantifiers, or the formula as which data is read.
#[derive(Drop)]
pub(crate) enum Value {
    Data(TypedTerm),
    Formula(Formula),
}

impl Value {
    /// What is known of the values; data that is read as a formula is of kind Bool.
    pub(crate) fn shape(&self) -> Shape
        ensures { shape_view result ≡ value_shape self.now }
    {
        match self {
            Value::Data(data) => data.shape,
            Value::Formula(_) => Shape::Truths,
        }
    }

    /// Data as a formula: data without quantifiers is one test.
    pub(crate) fn into_formula(self) -> Formula
        ensures { formula_view result ≡ as_formula (value_view self) }
    {
        match self {
            Value::Data(data) => Formula::Test(data.term),
            Value::Formula(formula) => formula,
        }
    }
}

/// Operands of one connective, as far as they are read.
#[derive(Drop)]
enum Joined {
    /// No operand is a formula.
    Terms {
        first: Term,
        links: Vec<Term>,
    },
    /// Operands up to the last formula, and the data behind it.
    Formulas {
        first: Formula,
        links: Vec<Formula>,
        behind: Vec<Term>,
    },
}

/// Operands of one connective, read to the right. The data behind the last formula is one test.
///
/// # Errors
/// Memory was refused.
pub(crate) fn joined_values(
    alloc: Global,
    connective: Connective,
    first: Value,
    rest: Vec<Value>,
) -> Result<Value, AllocError>
    ensures shape { IfOk result (λ v. value_shape v ≡ model.Truths) }
    ensures value { IfOk result (λ v. value_view v
        ≡ chained_formula (joined connective) (value_view first) (value_views rest.items)) }
{
    let mut state = started(alloc, first);
    for value in rest {
        state = added(alloc, state, value)?;
    }
    finished(alloc, connective, state)
}

fn started(alloc: Global, value: Value) -> Joined
    ensures { pieces result ≡ value_views (value ∷ []) }
{
    match value {
        Value::Data(first) => Joined::Terms {
            first: first.term,
            links: Vec::new(alloc),
        },
        Value::Formula(first) => Joined::Formulas {
            first,
            links: Vec::new(alloc),
            behind: Vec::new(alloc),
        },
    }
}

/// One operand more.
fn added(alloc: Global, state: Joined, value: Value) -> Result<Joined, AllocError>
    ensures { IfOk result (λ after. (o : connectives.Connective) (xs : List values.TermValue)
        → folded o (pieces after ++ xs) ≡ folded o (pieces state ++ (value_view value ∷ xs))) }
{
    match (state, value) {
        (Joined::Terms { first, links }, Value::Data(data)) => {
            let (first, links) = paired(first, with_last(links, data.term))?;
            Ok(Joined::Terms { first, links })
        }
        (Joined::Terms { first, links }, Value::Formula(formula)) => {
            let tests = with_tests(Vec::new(alloc), links, formula);
            let (first, links) = paired(first, tests)?;
            Ok(Joined::Formulas {
                first: Formula::Test(first),
                links,
                behind: Vec::new(alloc),
            })
        }
        (
            Joined::Formulas {
                first,
                links,
                behind,
            },
            Value::Data(data),
        ) => {
            let (first, behind) = paired(first, with_last(behind, data.term))?;
            Ok(Joined::Formulas {
                first,
                links,
                behind,
            })
        }
        (
            Joined::Formulas {
                first,
                links,
                behind,
            },
            Value::Formula(formula),
        ) => {
            let operands = with_tests(links, behind, formula);
            let (first, links) = paired(first, operands)?;
            Ok(Joined::Formulas {
                first,
                links,
                behind: Vec::new(alloc),
            })
        }
    }
}

/// Data as tests, and a formula behind it.
fn with_tests(
    formulas: Vec<Formula>,
    terms: Vec<Term>,
    last: Formula,
) -> Result<Vec<Formula>, AllocError>
    ensures { IfOk result (λ all. formula_views all.items ≡ formula_views formulas.items
        ++ (map Test (term_views terms.items) ++ formula_views (last ∷ []))) }
{
    let tests = add_tests(formulas, terms);
    let (formula, mut all) = paired(last, tests)?;
    all.push(formula)?;
    Ok(all)
}

/// Data as tests behind formulas.
fn add_tests(mut formulas: Vec<Formula>, terms: Vec<Term>) -> Result<Vec<Formula>, AllocError>
    ensures { IfOk result (λ all. formula_views all.items
        ≡ formula_views formulas.items ++ map Test (term_views terms.items)) }
{
    for term in terms {
        formulas.push(Formula::Test(term))?;
    }
    Ok(formulas)
}

fn finished(alloc: Global, connective: Connective, state: Joined) -> Result<Value, AllocError>
    ensures shape { IfOk result (λ v. value_shape v ≡ model.Truths) }
    ensures value { IfOk result (λ v. value_view v ≡ folded connective (pieces state)) }
{
    match state {
        Joined::Terms { first, links } => {
            let first = Box::new(alloc, first)?;
            let term = Term::Chain {
                connective,
                first,
                links,
            };
            Ok(Value::Data(TypedTerm {
                term,
                shape: Shape::Truths,
            }))
        }
        Joined::Formulas {
            first,
            links,
            behind,
        } => {
            let operands = with_tail(alloc, connective, links, behind);
            let (head, links) = paired(first, operands)?;
            let first = Box::new(alloc, head)?;
            Ok(Value::Formula(Formula::Chain {
                connective,
                first,
                links,
            }))
        }
    }
}

/// Data behind formulas, if there is any, as one test.
fn with_tail(
    alloc: Global,
    connective: Connective,
    mut formulas: Vec<Formula>,
    mut terms: Vec<Term>,
) -> Result<Vec<Formula>, AllocError>
    ensures { IfOk result (λ all. formula_views all.items
        ≡ formula_views formulas.items ++ values.tail connective (term_views terms.items)) }
{
    if terms.is_empty() {
        return Ok(formulas);
    }
    let first = terms.remove(0);
    let first = Box::new(alloc, first)?;
    formulas.push(Formula::Test(Term::Chain {
        connective,
        first,
        links: terms,
    }))?;
    Ok(formulas)
}
