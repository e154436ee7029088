//! The functions of data, by how many arguments they take.

ghost use Rattle.std.specs.Prelude.{◌≡◌, Some, List, Contains, MatchResult};
ghost use Rattle.pb_text_meaning.specs.Functions.{named_function};
ghost use Rattle.pb_text_meaning.specs.Syntax as syntax;
ghost use Rattle.pb_text_tree.specs.Form.{named};
ghost use Rattle.pb_typing_declarations.specs.Shapes as model;
ghost use Rattle.pb_typing_declarations.specs.View.{spec_of};
ghost use Rattle.pb_typing_rules.specs.Faults.{function_faults};
ghost use Rattle.pb_typing_rules.specs.Functions.{function_named};
ghost use Rattle.pb_typing_nodes.specs.Functions.{IsFunction, arity_of};

use crate::name::unknown;
use crate::operation::UnaryOperation;
use pb_text_meaning::NamedFunction;
use pb_text_tree::Name;
use pb_typing_declarations::{Declarations, Enumerator, TypingFault};

/// A function of data.
#[derive(Clone, Copy)]
pub enum Function {
    OfOne(FunctionOfOne),
    OfTwo(Extreme),
    /// One of two values, as a condition says: `if`.
    Choice,
}

/// A function of one argument.
#[derive(Clone, Copy)]
pub enum FunctionOfOne {
    /// A number as it is: `Pos2Nat` and the like.
    Conversion,
    /// `succ`, `pred` and `abs`.
    Operation(UnaryOperation),
    /// Whether a value is this enumerator.
    Recogniser(Enumerator),
}

/// The greater or the lesser of two numbers.
#[derive(Clone, Copy)]
pub enum Extreme {
    Maximum,
    Minimum,
}

impl Function {
    /// What a named function is.
    fn of(function: NamedFunction) -> Function
        ensures { (S : syntax.Spec) (x : syntax.Name) → named_function x ≡ Some function
            → IsFunction S x result }
    {
        match function {
            NamedFunction::If => Function::Choice,
            NamedFunction::Succ => {
                Function::OfOne(FunctionOfOne::Operation(UnaryOperation::Successor))
            }
            NamedFunction::Pred => {
                Function::OfOne(FunctionOfOne::Operation(UnaryOperation::Predecessor))
            }
            NamedFunction::Abs => {
                Function::OfOne(FunctionOfOne::Operation(UnaryOperation::AbsoluteValue))
            }
            NamedFunction::Max => Function::OfTwo(Extreme::Maximum),
            NamedFunction::Min => Function::OfTwo(Extreme::Minimum),
            NamedFunction::Pos2Nat => Function::OfOne(FunctionOfOne::Conversion),
            NamedFunction::Pos2Int => Function::OfOne(FunctionOfOne::Conversion),
            NamedFunction::Nat2Int => Function::OfOne(FunctionOfOne::Conversion),
        }
    }

    /// How many arguments it takes.
    pub fn arity(self) -> usize
        ensures { result ≡ arity_of self }
    {
        match self {
            Function::OfOne(_) => 1,
            Function::OfTwo(_) => 2,
            Function::Choice => 3,
        }
    }
}

/// The function of a name: one that is there in each text, else a recogniser.
///
/// # Errors
/// The name stands for no function (T01), or for a predicate variable (T07).
pub fn find_function(declarations: &Declarations<'_>, name: &Name) -> Result<Function, TypingFault>
    ensures { MatchResult result
        (IsFunction (spec_of declarations.now) (named name.now).text)
        (λ e. (ss : List model.Shape) → Contains (function_faults (spec_of declarations.now)
        (function_named (spec_of declarations.now) (named name.now).text) ss (named name.now)) e) }
{
    match NamedFunction::named(&name.text) {
        Some(function) => Ok(Function::of(function)),
        None => match declarations.recogniser(&name.text) {
            Some(found) => Ok(Function::OfOne(FunctionOfOne::Recogniser(found))),
            None => Err(unknown(declarations, name)),
        },
    }
}
