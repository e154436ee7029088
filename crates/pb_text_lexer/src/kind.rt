//! Which tokens there are. All tokens of a whole language are cut, whichever of them a grammar
//! uses.

ghost use Rattle.std.specs.Prelude.{◌≡◌, ◌≢◌, true, false};
ghost use Rattle.pb_text_lexer.specs.Kinds as spec;

/// What a token is. The last four stand where no further token does.
#[derive(Clone, Copy, Debug, PartialEq, Eq)]
pub enum Kind {
    /// A letter or `_`, and then letters, digits, `_` and `'`.
    Name,
    /// `0`, or a digit from 1 to 9 and then digits, at most 2^62.
    Number,
    /// `sort`
    Sort,
    /// `struct`
    Struct,
    /// `pbes`
    Pbes,
    /// `mu`
    Mu,
    /// `nu`
    Nu,
    /// `init`
    Init,
    /// `val`
    Val,
    /// `true`
    True,
    /// `false`
    False,
    /// `forall`
    Forall,
    /// `exists`
    Exists,
    /// `div`
    Div,
    /// `mod`
    Mod,
    /// `model`
    Model,
    /// `state`
    State,
    /// `step`
    Step,
    /// `property`
    Property,
    /// `define`
    Define,
    /// `skip`
    Skip,
    /// `count`, where it counts: of models alone.
    Count,
    /// A word that is reserved and used nowhere.
    Reserved,
    /// `==`
    Equal,
    /// `!=`
    NotEqual,
    /// `=>`
    Implies,
    /// `<=`
    LessOrEqual,
    /// `>=`
    GreaterOrEqual,
    /// `&&`
    And,
    /// `||`
    Or,
    /// `->`
    Arrow,
    /// `:=`
    Assign,
    /// `(`
    Open,
    /// `)`
    Close,
    /// `[`
    OpenSquare,
    /// `]`
    CloseSquare,
    /// `,`
    Comma,
    /// `;`
    Semicolon,
    /// `:`
    Colon,
    /// `.`
    Period,
    /// `=`
    Is,
    /// `!`
    Not,
    /// `|`
    Bar,
    /// `<`
    Less,
    /// `>`
    Greater,
    /// `+`
    Plus,
    /// `-`
    Minus,
    /// `*`
    Times,
    /// `?`
    Question,
    /// The end of the text.
    End,
    /// A byte that begins no token.
    Unknown,
    /// A number above 2^62.
    LargeNumber,
    /// A range line.
    RangeLine,
}

/// Whether two tokens are of one kind.
#[inline(always)]
pub fn same_kind(a: Kind, b: Kind) -> bool
    ensures value { result ≡ spec.same_kind a b }
    ensures same { result ≡ true → a ≡ b }
    ensures other { result ≡ false → a ≢ b }
{
    a == b
}

/// Whether no token stands behind one of this kind.
pub fn is_last(kind: Kind) -> bool
    ensures { result ≡ spec.is_last kind }
{
    matches!(
        kind,
        Kind::End | Kind::Unknown | Kind::LargeNumber | Kind::RangeLine
    )
}
