//! The truth of a property's module by representatives.
ghost use Rattle.std.specs.Prelude.{◌≡◌, ℕ, true, List, IfOk, IfSome};
ghost use Rattle.pb_protocol_meaning.specs.Erase.{protocol_of};
ghost use Rattle.pb_protocol_symmetry.specs.ProtocolTest.{is_symmetric};
ghost use Rattle.pb_property_symmetry.specs.Truth.{IsTruthByExchanges};

use pb_base::OrMemory;
use pb_exploration_words::Gate;
use pb_game_of_trees::Crew;
use pb_orbit_answers::answer_represented;
use pb_protocol_representatives::{Exchanges, exchanges_of, sequences_are_symmetries};
use pb_protocol_scalar_sets::ScalarSet;
use pb_sorts::Counting;
use pb_verifier::Verified;
use std::alloc::AllocError;
use std::marker::Model;
use std::thread::Threads;

/// A sequence of exchanges, by the places of the elements. By such the symmetries are given, of
/// which no code holds one.
#[derive(Drop)]
struct Sequence {
    places: Vec<u64>,
}

impl Model for Sequence {
    ghost use Rattle.std.specs.Prelude.{ℕ, List};

    ghost Value = { List ℕ };

    ghost view = { λ sequence. sequence.places.items };
}

/// The truth of a module's initial instance where exchanging two of a set's elements is a symmetry,
/// by representatives. `None` where the instances' numbers aren't moved so, or where there are more
/// representatives than a game has vertices.
///
/// # Errors
/// Memory was refused.
pub fn truth_by_exchanges<R: Threads + Sync, G: Gate>(
    crew: &Crew<'_, R>,
    verified: &Verified,
    set: &ScalarSet<'_>,
    gate: &G,
) -> Result<Option<bool>, AllocError>
    requires { is_symmetric (protocol_of set.now.protocol.now) set.now.sort.now set.now.moved.now
        ≡ true }
    ensures { IfOk result (λ found. IfSome found (IsTruthByExchanges
        (protocol_of set.now.protocol.now) set.now.sort.now set.now.moved.now verified.now)) }
{
    sequences_are_symmetries();
    let Some(exchanges) = exchanges_of(crew.alloc, set, verified.layout().count())? else {
        return Ok(None);
    };
    match answer_represented::<Sequence, R, Exchanges<'_>, G>(
        crew,
        verified,
        &exchanges,
        Counting::Reached,
        gate,
    ) {
        Ok(truth) => Ok(Some(truth)),
        Err(OrMemory::Refused(_)) => Ok(None),
        Err(OrMemory::Memory) => Err(AllocError),
    }
}
