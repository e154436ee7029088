//! The slots of a quantifier, which run through the tuples of their carriers.

ghost use Rattle.std.specs.Prelude.{◌≡◌, ◌+◌, ◌≤◌, ℕ, true, false, length, map, pos};
ghost use Rattle.pb_base_values.specs.Carrier.{Tuple};
ghost use Rattle.pb_typing_calls.specs.Loops.{Holds, holding, tuples_of};

use pb_sorts::Carrier;
use pb_typing_values::{advance, clear, start};

/// The slots from `slot` on, which have these carriers.
#[derive(Clone, Copy)]
pub(crate) struct Loops<'a> {
    pub slot: usize,
    pub carriers: &'a [Carrier],
}

impl Loops<'_> {
    /// Puts the first tuple into the slots.
    pub(crate) fn start(&self, slots: &mut [i64])
        requires { self.now.slot + length self.now.carriers.now ≤ length slots.old }
        ensures { Holds self.now slots.old 0 slots.new }
    {
        let end = self.slot + self.carriers.len();
        start(self.carriers, &mut slots[self.slot..end]);
    }

    /// Goes on to the next tuple, and answers false where there is none.
    pub(crate) fn advance(&self, slots: &mut [i64]) -> bool
        requires { self.now.slot + length self.now.carriers.now ≤ length slots.old }
        ensures next { (outer : Tuple) (k : ℕ) → Holds self.now outer k slots.old → result ≡ true
            → Holds self.now outer (k + 1) slots.new }
        ensures last { (outer : Tuple) (k : ℕ) → Holds self.now outer k slots.old
            → result ≡ false → length (tuples_of self.now) ≡ k + 1 }
        ensures others { (vs : Tuple) → length vs ≡ length self.now.carriers.now
            → holding self.now slots.new vs ≡ holding self.now slots.old vs }
    {
        let end = self.slot + self.carriers.len();
        advance(self.carriers, &mut slots[self.slot..end])
    }

    /// Puts 0 into the slots.
    pub(crate) fn clear(&self, slots: &mut [i64])
        requires { self.now.slot + length self.now.carriers.now ≤ length slots.old }
        ensures { (vs : Tuple) → length vs ≡ length self.now.carriers.now
            → slots.new ≡ holding self.now slots.old (map (λ v. pos 0) vs) }
    {
        let end = self.slot + self.carriers.len();
        clear(&mut slots[self.slot..end]);
    }
}
