//! How many trees have a Cut.
ghost use Rattle.std.specs.Prelude.{◌≡◌, ◌≤◌, ◌<◌, ◌^◌, List, length};
ghost use Rattle.pb_fixpoint_trees.specs.Tree.{Tree};
ghost use Rattle.pb_fixpoint_trees.specs.Tokens.{tree_tokens};
ghost use Rattle.pb_fixpoint_trees.specs.Rows.{Row as plain_row};
ghost use Rattle.pb_game_of_trees.specs.Held.{Hold};
ghost use Rattle.pb_report.specs.CutCalls.{has_cut, one_if, cut_count};

use pb_fixpoint_trees::{IndexedRows, ReadRows, TreeTokens};

/// 1 where a tree has a Cut, else 0.
fn cuts_of(tokens: &TreeTokens<'_>) -> u32
    ensures cut { (tree : Tree) → tokens.now ≡ tree_tokens tree → result ≡ one_if (has_cut tree) }
    ensures small { result ≤ 1 }
{
    if tokens.any_cut() { 1 } else { 0 }
}

/// How many reached instances have a Cut in their trees.
pub fn count_cut(rows: &IndexedRows) -> u32
    requires { length rows.now < 2 ^ 32 }
    ensures { (reached : List plain_row) → Hold rows.now reached → result ≡ cut_count reached }
{
    // Most modules call nothing outside the ranges, which one pass over all tokens tells.
    if !rows.any_cut() {
        return 0;
    }
    let mut count = 0;
    for k in 0..rows.len() {
        count += cuts_of(&rows.tokens(k));
    }
    count
}
