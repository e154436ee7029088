//! A game that is built from its last vertex to its first. The tokens of a tree are read from the
//! last one to the first, so that a bracket's operands are known when its opening token comes, and
//! its vertex goes before those of the brackets inside it.
ghost use Rattle.std.specs.Prelude.{◌≡◌, ◌∷◌, ◌<◌, ◌≤◌, ℕ, OnOk, List, [], length};
ghost use Rattle.pb_fixpoint_trees.specs.Tree.{Operands, End, LeafThen, Leaf, Tree};
ghost use Rattle.pb_fixpoint_trees.specs.Tokens.{opening, tree_tokens};
ghost use Rattle.pb_fixpoint_trees.specs.Game.{Vertex, rising_or, owner_of, sink_of, target, inner};
ghost use Rattle.pb_game_of_trees.specs.Draft.{IsDraft};
ghost use Rattle.pb_game_of_trees.specs.Numbering.{numbered_vertex};
ghost use Rattle.pb_game_of_trees.specs.Builder.{IsAt, IsBefore, IsBeforeFirst};
ghost use Rattle.pb_game_of_trees.specs.Builder.{HasFrame, HasFinished, HasOneEdge, HasTree};

use crate::bracket::{owner, sink};
use crate::draft::Draft;
use crate::numbering::Numbering;
use crate::small::{bracket_of, leaf_vertex};
use pb_fixpoint_trees::{IndexedRows, Junction, Kind, ReadRows, Token, TreeTokens};
use pb_game::Player;
use std::alloc::AllocError;

/// How many rows are looked at before the first of them is built.
const BLOCK: usize = 128;

/// How many tokens a bracket around one leaf has.
const ONE_LEAF: usize = 3;

#[derive(Drop)]
pub(crate) struct Builder {
    /// The vertices so far.
    pub draft: Draft,
    /// The number of the first of them.
    pub next: u32,
    /// Where the operands lead that were read of the open brackets: the outermost bracket's first,
    /// and of each bracket the last operand's first.
    pub targets: Vec<u32>,
    /// Where those of each open bracket begin, the outermost first.
    pub starts: Vec<usize>,
}

/// How many operands of a tree may wait for their brackets: none where it is a leaf, else no more
/// than it has tokens.
fn most_waiting(kinds: &[Kind]) -> usize
    ensures { result ≤ length kinds.now }
{
    if kinds.is_empty() {
        return 0;
    }
    match kinds[0] {
        Kind::And => kinds.len(),
        Kind::Or => kinds.len(),
        _ => 0,
    }
}

/// The most of it among some rows' trees. Trees that lie far apart are fetched side by side by this
/// short loop, and are near when they are built.
fn most_waiting_of(rows: &IndexedRows, from: usize, to: usize) -> usize
    requires { to ≤ length rows.now }
{
    let mut most: usize = 0;
    for k in from..to {
        most = most.max(most_waiting(rows.tokens(k).kinds()));
    }
    most
}

impl Builder {
    /// Makes room for the operands of the next rows' trees, where `left` rows are still to be
    /// built.
    pub fn make_room(&mut self, rows: &IndexedRows, left: usize) -> Result<(), AllocError>
        requires { left ≤ length rows.now }
        ensures { OnOk result ((at : ℕ → ℕ) (fs : List Operands) (behind : List Vertex) (limit : ℕ)
            → IsAt at self.old fs behind limit → IsAt at self.new fs behind limit) }
    {
        if left % BLOCK == 0 {
            let waiting = most_waiting_of(rows, left.saturating_sub(BLOCK), left);
            self.targets.reserve(waiting)?;
        }
        Ok(())
    }

    /// Reads a closing token.
    pub fn close(&mut self) -> Result<(), AllocError>
        ensures { OnOk result ((at : ℕ → ℕ) (fs : List Operands) (behind : List Vertex) (limit : ℕ)
            → IsAt at self.old fs behind limit → IsAt at self.new (End ∷ fs) behind limit) }
    {
        self.starts.push(self.targets.len())?;
        Ok(())
    }

    /// Reads a leaf, which leads to this vertex.
    pub fn leaf(&mut self, vertex: u32) -> Result<(), AllocError>
        ensures { OnOk result ((at : ℕ → ℕ) (l : Leaf) (f : Operands) (fs : List Operands)
            (behind : List Vertex) (limit : ℕ) → vertex ≡ target at l
            → IsAt at self.old (f ∷ fs) behind limit
            → IsAt at self.new (LeafThen l f ∷ fs) behind limit) }
    {
        self.targets.push(vertex)?;
        Ok(())
    }

    /// Puts the vertex of the innermost open bracket, all of whose operands were read, before the
    /// others.
    fn finish(&mut self, bracket: Junction, priority: u32) -> Result<(), AllocError>
        requires { (front outer operands : List ℕ) × HasFrame self.old front outer operands }
        ensures { OnOk result ((front outer operands : List ℕ) (vertices : List Vertex)
            → HasFrame self.old front outer operands → IsDraft self.old.draft vertices
            → HasFinished self.old self.new front outer
            (record {
              owner = owner_of bracket;
              priority = priority;
              successors = rising_or (sink_of bracket) operands;
            } ∷ vertices)) }
    {
        let start = self.starts.pop().unwrap();
        if start == self.targets.len() {
            self.targets.push(sink(bracket))?;
        }
        self.draft
            .put(owner(bracket), priority, &mut self.targets[start..])?;
        self.targets.truncate(start);
        Ok(())
    }

    /// Reads the opening token of a bracket within a tree.
    fn open(&mut self, bracket: Junction) -> Result<(), AllocError>
        requires { (at : ℕ → ℕ) × (fs : List Operands) × (behind : List Vertex) × (limit : ℕ)
            × IsBefore at self.old fs (opening bracket) behind limit }
        ensures { OnOk result ((at : ℕ → ℕ) (fs : List Operands) (behind : List Vertex) (limit : ℕ)
            → IsBefore at self.old fs (opening bracket) behind limit
            → IsAt at self.new fs behind limit) }
    {
        self.next -= 1;
        self.finish(bracket, 0)?;
        self.targets.push(self.next)?;
        Ok(())
    }

    /// Reads the opening token of a whole tree.
    fn open_root(&mut self, bracket: Junction, priority: u32) -> Result<(), AllocError>
        requires { (at : ℕ → ℕ) × (tree : Tree) × (behind : List Vertex) × (limit : ℕ)
            × IsBeforeFirst at self.old tree (opening bracket) behind limit }
        ensures { OnOk result ((at : ℕ → ℕ) (tree : Tree) (behind : List Vertex) (limit : ℕ)
            → IsBeforeFirst at self.old tree (opening bracket) behind limit
            → HasTree at self.new priority tree behind limit) }
    {
        self.next -= 1;
        self.finish(bracket, priority)?;
        Ok(())
    }

    /// Reads a tree of one vertex, of this player, from which one edge leads to `target`.
    fn one_edge(&mut self, owner: Player, target: u32, priority: u32) -> Result<(), AllocError>
        requires { 0 < self.old.next }
        ensures { OnOk result ((at : ℕ → ℕ) (tree : Tree) (behind : List Vertex) (limit : ℕ)
            → HasOneEdge at tree owner target → IsAt at self.old [] behind limit
            → HasTree at self.new priority tree behind limit) }
    {
        self.draft.put_one(owner, priority, target)?;
        self.next -= 1;
        Ok(())
    }

    /// Reads a token behind the first one of a tree.
    fn read(&mut self, vertices: &Numbering<'_>, token: Token) -> Result<(), AllocError>
        requires { (fs : List Operands) × (behind : List Vertex) × (limit : ℕ)
            × IsBefore (numbered_vertex vertices.now) self.old fs token behind limit }
        ensures { OnOk result ((fs : List Operands) (behind : List Vertex) (limit : ℕ)
            → IsBefore (numbered_vertex vertices.now) self.old fs token behind limit
            → IsAt (numbered_vertex vertices.now) self.new fs behind limit) }
    {
        match token {
            Token::And => self.open(Junction::Conjunction),
            Token::Or => self.open(Junction::Disjunction),
            Token::Close => self.close(),
            Token::Yes => self.leaf(1),
            Token::No => self.leaf(0),
            Token::Cut => self.leaf(0),
            Token::Call(number) => self.leaf(vertices.vertex(number)),
        }
    }

    /// Reads the first token of a tree.
    fn read_first(
        &mut self,
        vertices: &Numbering<'_>,
        token: Token,
        priority: u32,
    ) -> Result<(), AllocError>
        requires { (tree : Tree) × (behind : List Vertex) × (limit : ℕ)
            × IsBeforeFirst (numbered_vertex vertices.now) self.old tree token behind limit }
        ensures { OnOk result ((tree : Tree) (behind : List Vertex) (limit : ℕ)
            → IsBeforeFirst (numbered_vertex vertices.now) self.old tree token behind limit
            → HasTree (numbered_vertex vertices.now) self.new priority tree behind limit) }
    {
        match token {
            Token::And => self.open_root(Junction::Conjunction, priority),
            Token::Or => self.open_root(Junction::Disjunction, priority),
            Token::Close => unreachable!(),
            Token::Yes => self.one_edge(Player::Even, 1, priority),
            Token::No => self.one_edge(Player::Even, 0, priority),
            Token::Cut => self.one_edge(Player::Even, 0, priority),
            Token::Call(number) => self.one_edge(Player::Even, vertices.vertex(number), priority),
        }
    }

    /// Puts the vertices of an instance with this tree before the others. `vertices` are those of
    /// all instances.
    pub fn put_tree(
        &mut self,
        vertices: &Numbering<'_>,
        mut tokens: TreeTokens<'_>,
        priority: u32,
    ) -> Result<(), AllocError>
        requires spelled { (tree : Tree) × (tokens ≡ tree_tokens tree)
            × (inner tree < self.old.next) }
        requires before { (behind : List Vertex) × (limit : ℕ)
            × IsAt (numbered_vertex vertices.now) self.old [] behind limit }
        ensures { OnOk result ((tree : Tree) (behind : List Vertex) (limit : ℕ)
            → tokens.entry ≡ tree_tokens tree
            → IsAt (numbered_vertex vertices.now) self.old [] behind limit
            → HasTree (numbered_vertex vertices.now) self.new priority tree behind limit) }
    {
        if tokens.len() == ONE_LEAF {
            let owner = owner(bracket_of(tokens.take_first().unwrap()));
            let target = leaf_vertex(vertices, tokens.take_first().unwrap());
            return self.one_edge(owner, target, priority);
        }
        while tokens.len() > 1 {
            let token = tokens.take_last().unwrap();
            self.read(vertices, token)?;
        }
        let token = tokens.take_last().unwrap();
        self.read_first(vertices, token, priority)
    }
}
