//! The table of operators with two operands: the level at which each stands, and the level of its
//! operands.

ghost use Rattle.std.specs.Prelude.{◌≡◌, ◌<◌, ◌≤◌, ◌&&◌, Some, IfSome, IfNone};
ghost use Rattle.pb_text_terms.specs.Levels as spec;
ghost use Rattle.pb_text_terms.specs.Operators as operators;

use crate::operator::{Operators, is_binder, is_equality, is_order};
use pb_text_lexer::kind::Kind;
use pb_text_tree::Connective;

/// Levels of terms, one for each row of the grammar. What is no term of the level above it in this
/// list has operators of the level, or begins with a quantifier at `Quantified`.
#[derive(Clone, Copy)]
pub enum Level {
    /// A sign and its operand, a term in brackets, a number, a constant or a name.
    Unary,
    /// `*`, or `div` and `mod`
    Product,
    /// `+` and `-`
    Sum,
    /// `<`, `<=`, `>` or `>=`, once
    Order,
    /// `==` or `!=`, once
    Equality,
    /// A quantifier, over a body as far to the right as it goes.
    Quantified,
    /// `&&`
    Conjunction,
    /// `||`
    Disjunction,
    /// `=>`
    Implication,
}

/// Levels of operators that may follow a term: those behind `above` up to `limit`.
#[derive(Clone, Copy)]
pub struct Levels {
    pub above: Level,
    pub limit: Level,
}

/// Comparisons that may not follow each other.
#[derive(Clone, Copy)]
pub enum Relation {
    /// `<`, `<=`, `>` and `>=`
    Order,
    /// `==` and `!=`
    Equality,
}

/// Operators with two operands, those together that may stand in one chain.
#[derive(Clone, Copy)]
pub enum Operator {
    /// Of arithmetic, grouped to the left.
    Arithmetic(Operators),
    /// Comparisons, of which one stands.
    Relation(Relation),
    /// Connectives, grouped to the right.
    Connective(Connective),
}

/// The operator of a token, if it is one.
pub fn operator_of(kind: Kind) -> Option<Operator>
    ensures { result ≡ spec.operator_of_token kind }
{
    let operator = match kind {
        Kind::Times => Operator::Arithmetic(Operators::Times),
        Kind::Div | Kind::Mod => Operator::Arithmetic(Operators::Division),
        Kind::Plus | Kind::Minus => Operator::Arithmetic(Operators::Additive),
        Kind::Less | Kind::LessOrEqual | Kind::Greater | Kind::GreaterOrEqual => {
            Operator::Relation(Relation::Order)
        }
        Kind::Equal | Kind::NotEqual => Operator::Relation(Relation::Equality),
        Kind::And => Operator::Connective(Connective::And),
        Kind::Or => Operator::Connective(Connective::Or),
        Kind::Implies => Operator::Connective(Connective::Implies),
        _ => return None,
    };
    Some(operator)
}

/// The level at which operators stand.
pub fn level_of(operator: Operator) -> Level
    ensures { result ≡ spec.level_of operator }
{
    match operator {
        Operator::Arithmetic(Operators::Times | Operators::Division) => Level::Product,
        Operator::Arithmetic(Operators::Additive) => Level::Sum,
        Operator::Relation(Relation::Order) => Level::Order,
        Operator::Relation(Relation::Equality) => Level::Equality,
        Operator::Connective(Connective::And) => Level::Conjunction,
        Operator::Connective(Connective::Or) => Level::Disjunction,
        Operator::Connective(Connective::Implies) => Level::Implication,
    }
}

/// The level of what operators stand between.
pub fn operand_level(operator: Operator) -> Level
    ensures { result ≡ spec.operand_level operator }
{
    match operator {
        Operator::Arithmetic(Operators::Times | Operators::Division) => Level::Unary,
        Operator::Arithmetic(Operators::Additive) => Level::Product,
        Operator::Relation(Relation::Order) => Level::Sum,
        Operator::Relation(Relation::Equality) => Level::Order,
        Operator::Connective(Connective::And) => Level::Quantified,
        Operator::Connective(Connective::Or) => Level::Conjunction,
        Operator::Connective(Connective::Implies) => Level::Disjunction,
    }
}

/// How many levels are below a level.
fn rank(level: Level) -> u32
    ensures { result ≡ spec.rank level }
{
    match level {
        Level::Unary => 0,
        Level::Product => 1,
        Level::Sum => 2,
        Level::Order => 3,
        Level::Equality => 4,
        Level::Quantified => 5,
        Level::Conjunction => 6,
        Level::Disjunction => 7,
        Level::Implication => 8,
    }
}

/// Whether a token binds variables, and terms of a level may begin with it.
pub fn begins_quantified(level: Level, kind: Kind) -> bool
    ensures { result ≡ (spec.may_quantify level && operators.is_binder kind) }
{
    let may_quantify = matches!(
        level,
        Level::Quantified | Level::Conjunction | Level::Disjunction | Level::Implication
    );
    may_quantify && is_binder(kind)
}

/// The operator of a token, if it is one of these levels.
pub fn next_operator(levels: Levels, kind: Kind) -> Option<Operator>
    ensures stands { IfSome result (λ o. spec.operator_of_token kind ≡ Some o) }
    ensures above { IfSome result (λ o. spec.rank levels.above < spec.rank (spec.level_of o)) }
    ensures within { IfSome result (λ o. spec.rank (spec.level_of o) ≤ spec.rank levels.limit) }
    ensures none { IfNone result ((o : Operator) → spec.operator_of_token kind ≡ Some o
        → spec.rank levels.above < spec.rank (spec.level_of o)
        → spec.rank levels.limit < spec.rank (spec.level_of o)) }
{
    let operator = operator_of(kind)?;
    let rank_of = rank(level_of(operator));
    if rank(levels.above) < rank_of && rank_of <= rank(levels.limit) {
        Some(operator)
    } else {
        None
    }
}

/// Whether a token is a comparison of the relation.
pub fn is_related(relation: Relation, kind: Kind) -> bool
    ensures { result ≡ spec.is_related relation kind }
{
    match relation {
        Relation::Order => is_order(kind),
        Relation::Equality => is_equality(kind),
    }
}
