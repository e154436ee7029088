//! How values, states and moves of a model are written: values by the names that the model gives
//! them, a state by all its variables, a move by its step and by what changes. In a state an array
//! of equal elements has one value.
//!
//! It knows neither texts nor evidence, so that whatever tells of a model's states can stand on it.
//! All is total: of more values than there are variables, or fewer, those are written that are
//! beside a variable. Where the variables of states are packed in groups, the values that are
//! written are those of the variables.
#![tactic(auto)]

ghost use Rattle.std.specs.Prelude.{◌≡◌, [], ◌∷◌, ◌++◌, pos, negsuc, codes};
ghost use Rattle.pb_model_words.specs.Words.{state_text, values_text, move_text, changes_text};
ghost use Rattle.pb_model_words.specs.Words.{mark_text};
ghost use Rattle.pb_model_words.specs.GroupLines.{group_lines};
ghost use Rattle.pb_model_words.specs.Examples as example;
ghost use Rattle.pb_model_words.specs.Laws.{StatesSayTheirValues};

mod arrays;
mod group_lines;
mod moves;
mod states;
mod unpacking;
mod values;
mod variables;
mod vocabulary;
mod writing;

pub use group_lines::push_group_lines;
pub use moves::{Move, has_step, push_move, push_step_mark};
pub use states::{push_changes, push_state, push_values};
pub use vocabulary::{Vocabulary, plain_vocabulary, told_vocabulary};

/// A state and moves, as the definitions compute them: enumerators by their names, an alias of Bool
/// as its target, numbers below 0; an array of equal elements, and of others; a step with values of
/// its own, and no step.
pub fn worked_examples()
    ensures state { state_text example.own_words (pos 0 ∷ pos 1 ∷ pos 0 ∷ negsuc 2 ∷ [])
        ≡ codes "p = noncritical, q = tested, flag = false, n = -3" }
    ensures array { state_text example.other_words (pos 1 ∷ pos 1 ∷ pos 0 ∷ negsuc 2 ∷ [])
        ≡ codes "at = tested, up = false, n = -3" }
    ensures elements { state_text example.other_words (pos 0 ∷ pos 1 ∷ pos 0 ∷ negsuc 2 ∷ [])
        ≡ codes "at(1) = noncritical, at(2) = tested, up = false, n = -3" }
    ensures values { values_text example.own_words (pos 0 ∷ pos 1 ∷ pos 0 ∷ negsuc 2 ∷ [])
        ≡ codes "(noncritical,tested,false,-3)" }
    ensures step { move_text example.own_words (example.line 5) []
        (pos 0 ∷ pos 0 ∷ pos 0 ∷ pos 7 ∷ []) (pos 0 ∷ pos 1 ∷ pos 0 ∷ pos 7 ∷ [])
        ≡ codes "test2: q := tested" }
    ensures own_values { move_text example.own_words (example.line 6) (pos 1 ∷ negsuc 0 ∷ [])
        (pos 0 ∷ pos 2 ∷ pos 0 ∷ pos 7 ∷ []) (pos 1 ∷ pos 2 ∷ pos 1 ∷ negsuc 0 ∷ [])
        ≡ codes "set(tested,-1): p := tested, flag := true, n := -1" }
    ensures stays { move_text example.own_words (example.line 9) []
        (pos 0 ∷ pos 2 ∷ pos 0 ∷ pos 7 ∷ []) (pos 0 ∷ pos 2 ∷ pos 0 ∷ pos 7 ∷ [])
        ≡ codes "stays" }
    ensures changes { changes_text example.own_words (pos 0 ∷ pos 2 ∷ pos 1 ∷ pos 7 ∷ [])
        (pos 0 ∷ pos 2 ∷ pos 0 ∷ pos 7 ∷ []) ≡ codes ": flag := false" }
    ensures mark { mark_text example.own_words (example.line 6) (pos 1 ∷ negsuc 0 ∷ [])
        ≡ codes "@set(tested,-1)" }
    ensures called { move_text example.other_words (example.line 5) []
        (pos 0 ∷ pos 0 ∷ pos 0 ∷ pos 7 ∷ []) (pos 0 ∷ pos 1 ∷ pos 0 ∷ pos 7 ∷ [])
        ≡ codes "test(2): at(2) := tested" }
    ensures no_mark { mark_text example.own_words (example.line 9) [] ≡ [] }
{}

/// The same model with its first two variables packed in a group: their values are those that make
/// its number, and nothing is told of them where it leaves its range.
pub fn worked_groups()
    ensures state { state_text example.packed_words (pos 5 ∷ pos 1 ∷ negsuc 2 ∷ [])
        ≡ codes "p = tested, q = critical, flag = true, n = -3" }
    ensures values { values_text example.packed_words (pos 7 ∷ pos 0 ∷ pos 7 ∷ [])
        ≡ codes "(critical,tested,false,7)" }
    ensures step { move_text example.packed_words (example.line 5) []
        (pos 3 ∷ pos 0 ∷ pos 7 ∷ []) (pos 4 ∷ pos 0 ∷ pos 7 ∷ []) ≡ codes "test2: q := tested" }
    ensures leaves { move_text example.packed_words (example.line 6) (pos 1 ∷ negsuc 0 ∷ [])
        (pos 4 ∷ pos 0 ∷ pos 7 ∷ []) (pos 9 ∷ pos 0 ∷ negsuc 0 ∷ [])
        ≡ codes "set(tested,-1): n := -1" }
{}

/// How the groups' numbers are made, as the definitions compute it: enumerators by their places,
/// and whole numbers counted from the lowest one.
pub fn worked_group_lines()
    ensures enumerators { group_lines example.packed_words ≡ codes "p' = p * 3 + q" ++ 10 ∷ [] }
    ensures numbers { group_lines example.called_words
        ≡ (codes "q' = at(2) * 12 + up * 6 + (n + 2)" ++ 10 ∷ []) }
    ensures none { group_lines example.own_words ≡ [] }
{}

/// A state of a packed model says the values of the model's variables that make its numbers.
pub fn states_say_their_values()
    ensures { StatesSayTheirValues }
{}
