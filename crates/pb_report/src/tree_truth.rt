//! The truth of a tree, in one pass over its tokens, where some instances have a truth value and
//! all others the opposite, and where cut calls are true.

ghost use Rattle.std.specs.Prelude.{◌≡◌, ◌++◌, ◌∷◌, [], List, ℕ, IfOk, OnOk};
ghost use Rattle.std.specs.List.Sorted.{IsPermutation};
ghost use Rattle.pb_fixpoint.specs.Solution.{Environment};
ghost use Rattle.pb_fixpoint_trees.specs.declared.Token.{Token};
ghost use Rattle.pb_fixpoint_trees.specs.declared.Token.TheVariants.{Close};
ghost use Rattle.pb_fixpoint_trees.specs.Tree.{Tree, tree_truth};
ghost use Rattle.pb_fixpoint_trees.specs.Tokens.{tree_tokens};
ghost use Rattle.pb_evidence.specs.ProofGraphs.{exactly};
ghost use Rattle.pb_report.specs.Cuts.{uncut};
ghost use Rattle.pb_report.specs.Rising.{IsRising};
ghost use Rattle.pb_report.specs.Reading.{bracket_truth, with_operand, read_on};

use pb_fixpoint_trees::{Token, TreeTokens};
use std::alloc::{AllocError, Global};

/// An open bracket, with the truth of its operands so far: of all of them, or of any.
#[derive(Clone, Copy)]
pub(crate) enum Bracket {
    All(bool),
    Any(bool),
}

impl Bracket {
    fn truth(self) -> bool
        ensures { result ≡ bracket_truth self }
    {
        match self {
            Bracket::All(truth) => truth,
            Bracket::Any(truth) => truth,
        }
    }

    fn with_operand(self, operand: bool) -> Bracket
        ensures { result ≡ with_operand self operand }
    {
        match self {
            Bracket::All(truth) => Bracket::All(truth && operand),
            Bracket::Any(truth) => Bracket::Any(truth || operand),
        }
    }
}

/// Instances that have a truth value, where all others have the opposite.
#[derive(Drop)]
pub(crate) struct Named {
    pub value: bool,
    pub numbers: Vec<u64>,
    pub ghost rising: { IsRising numbers.items },
}

impl Named {
    pub(crate) fn new(alloc: Global, value: bool, numbers: &[u64]) -> Result<Named, AllocError>
        ensures value { IfOk result (λ named. named.value ≡ value) }
        ensures numbers { IfOk result (λ named. IsPermutation numbers.now named.numbers.items) }
    {
        let mut numbers = Vec::from_slice(alloc, numbers)?;
        numbers.sort_unstable();
        Ok(Named { value, numbers })
    }

    /// The truth value of an instance.
    fn truth(&self, number: u64) -> bool
        ensures { result ≡ exactly self.now.value self.now.numbers.items number }
    {
        self.numbers.binary_search(&number).is_ok() == self.value
    }
}

/// A tree of which some tokens were read: the innermost open bracket, and those around it, the
/// outermost first.
#[derive(Drop)]
struct Reading {
    inner: Bracket,
    outer: Vec<Bracket>,
}

impl Reading {
    /// Reads an opening token.
    fn open(&mut self, bracket: Bracket) -> Result<(), AllocError>
        ensures inner { OnOk result (self.new.inner ≡ bracket) }
        ensures outer { OnOk result (self.new.outer.items
            ≡ self.old.outer.items ++ self.old.inner ∷ []) }
    {
        self.outer.push(self.inner)?;
        self.inner = bracket;
        Ok(())
    }

    /// Reads a closing token.
    fn close(&mut self)
        ensures { (t : Environment ℕ) (rest : List Token)
            → read_on t self.new rest ≡ read_on t self.old (Close ∷ rest) }
    {
        if let Some(outer) = self.outer.pop() {
            self.inner = outer.with_operand(self.inner.truth());
        }
    }

    /// Reads a leaf with this truth value.
    fn leaf(&mut self, truth: bool)
        ensures inner { self.new.inner ≡ with_operand self.old.inner truth }
        ensures outer { self.new.outer ≡ self.old.outer }
    {
        self.inner = self.inner.with_operand(truth);
    }

    fn read(&mut self, named: &Named, token: Token) -> Result<(), AllocError>
        ensures { OnOk result ((rest : List Token)
            → read_on (exactly named.now.value named.now.numbers.items) self.new rest
            ≡ read_on (exactly named.now.value named.now.numbers.items) self.old (token ∷ rest)) }
    {
        match token {
            Token::And => self.open(Bracket::All(true))?,
            Token::Or => self.open(Bracket::Any(false))?,
            Token::Close => self.close(),
            Token::Yes => self.leaf(true),
            Token::No => self.leaf(false),
            Token::Cut => self.leaf(true),
            Token::Call(number) => self.leaf(named.truth(number)),
        }
        Ok(())
    }
}

/// The truth of the tree of these tokens, its cut calls being true.
pub(crate) fn uncut_truth(
    alloc: Global,
    mut tokens: TreeTokens<'_>,
    named: &Named,
) -> Result<bool, AllocError>
    ensures { IfOk result (λ truth. (tree : Tree) → tokens.entry ≡ tree_tokens tree
        → truth ≡ tree_truth (exactly named.now.value named.now.numbers.items) (uncut tree)) }
{
    let mut reading = Reading {
        inner: Bracket::Any(false),
        outer: Vec::new(alloc),
    };
    while let Some(token) = tokens.take_first() {
        reading.read(named, token)?;
    }
    Ok(reading.inner.truth())
}
