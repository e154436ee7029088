//! Trees of a bracket around one leaf, which the instances of a chain have: their vertices have one
//! successor, and need no lists of operands.
ghost use Rattle.std.specs.Prelude.{◌≡◌};
ghost use Rattle.pb_fixpoint_trees.specs.declared.junction.Junction.{Junction};
ghost use Rattle.pb_fixpoint_trees.specs.Tree.{Leaf};
ghost use Rattle.pb_fixpoint_trees.specs.Tokens.{opening, leaf_token};
ghost use Rattle.pb_fixpoint_trees.specs.Game.{target};
ghost use Rattle.pb_game_of_trees.specs.Numbering.{numbered_vertex};

use crate::numbering::Numbering;
use pb_fixpoint_trees::{Junction, Token};

/// Where a leaf leads.
pub(crate) fn leaf_vertex(vertices: &Numbering<'_>, token: Token) -> u32
    requires { (l : Leaf) × (token ≡ leaf_token l) }
    ensures { (l : Leaf) → token ≡ leaf_token l
        → result ≡ target (numbered_vertex vertices.now) l }
{
    match token {
        Token::Yes => 1,
        Token::No => 0,
        Token::Cut => 0,
        Token::Call(number) => vertices.vertex(number),
        Token::And => unreachable!(),
        Token::Or => unreachable!(),
        Token::Close => unreachable!(),
    }
}

/// The bracket that a token opens.
pub(crate) fn bracket_of(token: Token) -> Junction
    requires { (c : Junction) × (token ≡ opening c) }
    ensures { (c : Junction) → token ≡ opening c → result ≡ c }
{
    match token {
        Token::And => Junction::Conjunction,
        Token::Or => Junction::Disjunction,
        Token::Yes => unreachable!(),
        Token::No => unreachable!(),
        Token::Cut => unreachable!(),
        Token::Call(_) => unreachable!(),
        Token::Close => unreachable!(),
    }
}
