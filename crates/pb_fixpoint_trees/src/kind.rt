//! What kinds of tokens there are.
ghost use Rattle.std.specs.Prelude.{◌≡◌};
ghost use Rattle.pb_fixpoint_trees.specs.Kinds.{kind_of, token_of};

use crate::Token;

/// A token without the number that it calls, of one byte. The kinds are in the order of the tokens,
/// so that the kind of a token is found without a branch.
#[derive(Clone, Copy, PartialEq, Eq)]
pub enum Kind {
    And,
    Or,
    Close,
    Yes,
    No,
    Cut,
    Call,
}

impl Kind {
    /// The kind of a token.
    #[inline(always)]
    pub fn of(token: Token) -> Kind
        ensures { result ≡ kind_of token }
    {
        match token {
            Token::And => Kind::And,
            Token::Or => Kind::Or,
            Token::Close => Kind::Close,
            Token::Yes => Kind::Yes,
            Token::No => Kind::No,
            Token::Cut => Kind::Cut,
            Token::Call(_) => Kind::Call,
        }
    }

    /// The one token of this kind; none for calls, each of which has a number besides.
    #[inline(always)]
    pub fn token(self) -> Option<Token>
        ensures { result ≡ token_of self }
    {
        match self {
            Kind::And => Some(Token::And),
            Kind::Or => Some(Token::Or),
            Kind::Close => Some(Token::Close),
            Kind::Yes => Some(Token::Yes),
            Kind::No => Some(Token::No),
            Kind::Cut => Some(Token::Cut),
            Kind::Call => None,
        }
    }
}
