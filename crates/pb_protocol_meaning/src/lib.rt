//! What a protocol means, as it is written: the abstract syntax of arrays, definitions, steps by
//! their values and quantified formulas, its transition system and the states that satisfy a
//! formula, all in `specs/`.
#![tactic(auto)]

ghost use Rattle.std.specs.Prelude.{◌≡◌, true, false, [], ◌∷◌, pos};
ghost use Rattle.pb_protocol_meaning.specs.Steps.{value_at, next_state, initial_state, is_enabled};
ghost use Rattle.pb_protocol_meaning.specs.Satisfaction.{satisfies};
ghost use Rattle.pb_protocol_meaning.specs.Examples as example;

/// Terms at a state of two caches: an element by a variable, a definition whose quantifier has its
/// argument's name, and the name that an element has in the flat model, which is nothing here. And
/// at a state of a round of votes how many of them are cast.
pub fn worked_examples_of_terms()
    ensures by_variable { value_at example.caches example.owned [] example.owners_line ≡ pos 2 }
    ensures definition { value_at example.caches example.owned ((example.c, pos 0) ∷ [])
        example.other_than_c ≡ pos 1 }
    ensures count { value_at example.round_of_votes example.others_said []
        example.votes_counted ≡ pos 2 }
    ensures no_name { value_at example.caches example.owned [] example.line2 ≡ pos 0 }
{}

/// Where a step of the caches leads: of two assignments to one element the later counts. A step of
/// the votes assigns all elements, one of them again, and reads all in the old state; a definition
/// without state is its value at the start.
pub fn worked_examples_of_steps()
    ensures at_once { next_state example.caches example.owned example.grant (pos 1 ∷ pos 1 ∷ [])
        ≡ pos 0 ∷ pos 2 ∷ pos 1 ∷ [] }
    ensures apart { next_state example.caches example.owned example.grant (pos 0 ∷ pos 1 ∷ [])
        ≡ pos 2 ∷ pos 0 ∷ pos 0 ∷ [] }
    ensures for_all { next_state example.round_of_votes example.all_said example.reset []
        ≡ pos 0 ∷ pos 1 ∷ pos 0 ∷ pos 3 ∷ [] }
    ensures not_all { is_enabled example.round_of_votes example.others_said example.reset []
        ≡ false }
    ensures at_start { initial_state example.round_of_votes
        ≡ pos 0 ∷ pos 0 ∷ pos 1 ∷ pos 2 ∷ [] }
{}

/// What the caches satisfy: a cache that reads shares the line, some cache can read, and at most
/// one has written. A set of steps names a definition. And what leaves the ranges satisfies `true`
/// alone, and not all of one `true`.
pub fn worked_examples_of_formulas()
    ensures reads_share { satisfies example.caches example.reads_share ≡ true }
    ensures some_read { satisfies example.caches example.some_read ≡ true }
    ensures one_writer { satisfies example.caches example.one_writer ≡ true }
    ensures by_definition { satisfies example.round_of_votes example.second_says ≡ true }
    ensures outside_is_true { satisfies example.counter example.always ≡ true }
    ensures outside_is_no_more { satisfies example.counter example.always_over_one ≡ false }
{}
