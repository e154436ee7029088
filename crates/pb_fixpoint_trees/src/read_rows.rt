//! What rows can be asked, wherever their tokens stand: each kind of rows answers alike.
ghost use Rattle.std.specs.Prelude.{◌≡◌, ◌<◌, ◌^◌, All, List, false, length, slice_index_or};
ghost use Rattle.pb_fixpoint_trees.specs.Row.{HasNoCut, TokenRow, nothing};

use crate::tree_tokens::TreeTokens;

/// Rows that can be read. Contracts see a list of them.
pub trait ReadRows {
    /// The rows in order.
    ghost rows: { Self → List TokenRow };

    /// How many rows there are.
    fn len(&self) -> usize
        ensures { result ≡ length (rows self.now) };

    /// The number of a row's instance.
    fn number(&self, place: usize) -> u64
        requires { place < length (rows self.now) }
        ensures { result ≡ (slice_index_or (rows self.now) place nothing).number };

    /// How many tokens a row's tree has.
    fn tree_len(&self, place: usize) -> usize
        requires { place < length (rows self.now) }
        ensures value { result ≡ length (slice_index_or (rows self.now) place nothing).tree }
        ensures small { result < 2 ^ 32 };

    /// The tokens of a row's tree, from the left.
    fn tokens(&self, place: usize) -> TreeTokens<'_>
        requires { place < length (rows self.now) }
        ensures { result ≡ (slice_index_or (rows self.now) place nothing).tree };

    /// Whether any of the tokens is a cut, by one look at each. The tokens may be more than those
    /// of the rows' trees.
    fn any_cut(&self) -> bool
        ensures { result ≡ false → All HasNoCut (rows self.now) };
}
