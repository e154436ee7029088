//! The equations of a module as a game needs them.
ghost use Rattle.std.specs.Prelude.{◌≡◌, ◌^◌, ◌<◌, IfOk, map, vec_len};
ghost use Rattle.pb_fixpoint_trees.specs.Equations.{total};
ghost use Rattle.pb_bytecode.specs.Meaning.{signature_of};
ghost use Rattle.pb_game_of_trees.specs.Equations.{equations_of};

use crate::Signature;
use pb_verifier::Verified;
use std::alloc::{AllocError, Global};

/// Few equations, whose instances have numbers below 2^63.
#[derive(Drop)]
pub struct Signatures {
    pub items: Vec<Signature>,
    pub ghost few: { vec_len items < 256 },
    pub ghost numbered: { total (equations_of items.items) < 2 ^ 63 },
}

impl Signatures {
    /// The sign of each equation of a module, and how many instances its predicate variable has.
    ///
    /// # Errors
    /// Memory was refused.
    pub fn of_module(alloc: Global, verified: &Verified) -> Result<Signatures, AllocError>
        ensures { IfOk result (λ signatures. equations_of signatures.items.items
            ≡ map signature_of verified.now.equations) }
    {
        let module = verified.module();
        let layout = verified.layout();
        // For its contract alone: the instances of all equations are few.
        let _few = layout.count();
        let mut signatures = Vec::with_capacity(alloc, layout.equation_count())?;
        for k in 0..layout.equation_count() {
            signatures.push(Signature {
                sign: module.equations[k].sign,
                size: layout.size(k),
            })?;
        }
        Ok(Signatures { items: signatures })
    }
}
