//! Whether tokens have a cut.
ghost use Rattle.std.specs.Prelude.{◌≡◌, All, false};
ghost use Rattle.std.specs.List.{list_any};
ghost use Rattle.pb_fixpoint_trees.specs.Kinds.{kind_is_cut};
ghost use Rattle.pb_fixpoint_trees.specs.Row.{ListHasNoCut};

use crate::kind::Kind;
use crate::token_lists::TokenLists;

fn is_cut(kind: Kind) -> bool
    ensures { result ≡ kind_is_cut kind }
{
    match kind {
        Kind::Cut => true,
        _ => false,
    }
}

/// Whether one of the kinds is a cut.
pub(crate) fn any_cut(kinds: &[Kind]) -> bool
    ensures { result ≡ list_any kind_is_cut kinds.now }
{
    kinds.iter().any(|kind| is_cut(*kind))
}

/// Whether a token of one of the lists is a cut.
pub(crate) fn any_list_has_cut(lists: &[TokenLists]) -> bool
    ensures { result ≡ false → All ListHasNoCut lists.now }
{
    for tokens in lists {
        if tokens.any_cut() {
            return true;
        }
    }
    false
}
