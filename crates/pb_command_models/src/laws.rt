//! What is told of a model. The function does nothing: laws stand on its contract.
ghost use Rattle.std.specs.Prelude.{ℕ, List};
ghost use Rattle.pb_command_models.specs.Why.{IsToldFaithfully};

use pb_model_runs::{calls_are_moves, runs_go_to_successors};
use pb_model_typing::names_are_apart;
use pb_model_words::states_say_their_values;
use pb_protocol_laws::moves_are_the_protocols;

/// In whatever model is solved in the place of the protocol that bytes say, each call of a
/// property's text at a state is a step of the model, and a move of the protocol; and a state is
/// told as that of the protocol that it says.
pub fn told_calls_are_steps()
    ensures { (bytes : List ℕ) → IsToldFaithfully bytes }
{
    states_say_their_values();
    calls_are_moves();
    runs_go_to_successors();
    moves_are_the_protocols();
    names_are_apart();
}
