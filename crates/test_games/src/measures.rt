//! A plain solver by small progress measures (Jurdzinski 2000): measures of Even, lifted until none
//! changes. It shares nothing with the solver that is tested.

use pb_game::{Game, Player};
use std::alloc::{AllocError, Global};

/// A measure is one number: its digits to this base are the counts of the odd priorities, the
/// highest first.
const BASE: u64 = 16;

/// How much one more at the priority weighs, for an odd one; what is dropped below it, for an even
/// one.
fn weight(priority: u32) -> u64 {
    let mut weight = 1u64;
    for _ in 0..(priority / 2).min(14) {
        weight = weight.wrapping_mul(BASE);
    }
    weight
}

/// The least measure of a vertex of this priority, if its token moves to a vertex of this measure.
fn progress(priority: u32, next: u64, top: u64) -> u64 {
    if next >= top {
        return top;
    }
    let weight = weight(priority);
    let kept = next.wrapping_sub(next.checked_rem(weight).unwrap_or(0));
    if priority % 2 == 1 {
        kept.wrapping_add(weight).min(top)
    } else {
        kept
    }
}

/// Whether Even wins each vertex of a game of fewer than 16 vertices and priorities below 16.
pub(crate) fn won_by_even(alloc: Global, game: &Game) -> Result<Vec<bool>, AllocError> {
    let top = weight((game.greatest_priority() / 2 * 2).saturating_add(2));
    let mut measures = vec![in alloc; 0u64; game.len() as usize]?;
    for _ in 0..1_000_000 {
        let mut changed = false;
        for v in 0..game.len() {
            let mut best: Option<u64> = None;
            for &target in game.successors(v) {
                let next = measures.get(target as usize).copied().unwrap_or(0);
                let measure = progress(game.priority(v), next, top);
                best = Some(match best {
                    Some(other) if game.owner(v) == Player::Even => other.min(measure),
                    Some(other) => other.max(measure),
                    None => measure,
                });
            }
            let lifted = best.unwrap_or(0);
            if let Some(measure) = measures.get_mut(v as usize) {
                if *measure < lifted {
                    *measure = lifted;
                    changed = true;
                }
            }
        }
        if !changed {
            break;
        }
    }
    measures.iter().map(|measure| *measure < top).collect(alloc)
}
