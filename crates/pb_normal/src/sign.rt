//! What negations turn round (De Morgan).

ghost use Rattle.std.specs.Prelude.{◌≡◌};
ghost use Rattle.pb_typing.specs.View.{is_positive};
ghost use Rattle.pb_normal.specs.Chains.{joins};
ghost use Rattle.pb_normal.specs.Normalisation.{signed_quantifier};

use pb_fixpoint_trees::Junction;
use pb_text_tree::{Connective, Quantifier};
use pb_typing::Polarity;

/// What becomes of a quantifier under a polarity.
pub(crate) fn signed_quantifier(quantifier: Quantifier, polarity: Polarity) -> Quantifier
    ensures { result ≡ signed_quantifier quantifier (is_positive polarity) }
{
    match (quantifier, polarity) {
        (Quantifier::Forall, Polarity::Positive) | (Quantifier::Exists, Polarity::Negative) => {
            Quantifier::Forall
        }
        (Quantifier::Exists, Polarity::Positive) | (Quantifier::Forall, Polarity::Negative) => {
            Quantifier::Exists
        }
    }
}

/// What joins the operands of a connective under a polarity. The left side of `=>` counts as
/// negated.
pub(crate) fn signed_junction(connective: Connective, polarity: Polarity) -> Junction
    ensures { result ≡ joins connective (is_positive polarity) }
{
    let junction = match connective {
        Connective::And => Junction::Conjunction,
        Connective::Or | Connective::Implies => Junction::Disjunction,
    };
    match polarity {
        Polarity::Positive => junction,
        Polarity::Negative => junction.dual(),
    }
}
