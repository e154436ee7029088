//! Generated games.
use crate::games::Builder;
use pb_game::{Game, Player};
use std::alloc::Global;
use std::test::Fail;

/// A linear congruential generator.
#[derive(Drop)]
struct Generator {
    state: u64,
}

impl Generator {
    /// The next number, below the bound.
    fn below(&mut self, bound: u32) -> u32 {
        self.state = self
            .state
            .wrapping_mul(6364136223846793005)
            .wrapping_add(1442695040888963407);
        let high = u32::try_from(self.state >> 33).unwrap_or(0);
        high.checked_rem(bound).unwrap_or(0)
    }
}

/// A game of 1 to 12 vertices with priorities 0 to 5: of an even seed about a third of all edges
/// stand, of an odd one at most two leave a vertex.
pub(crate) fn generated(alloc: Global, seed: u64) -> Result<Game, Fail> {
    let mut generator = Generator { state: seed };
    let vertices = generator.below(12).saturating_add(1);
    let mut builder = Builder::new(alloc)?;
    let mut successors = Vec::new(alloc);
    for _vertex in 0..vertices {
        let owner = Player::of_priority(generator.below(2));
        let priority = generator.below(6);
        successors.clear();
        let needed = [generator.below(vertices), generator.below(vertices)];
        for target in 0..vertices {
            let is_drawn = seed % 2 == 0 && generator.below(3) == 0;
            if is_drawn || needed.contains(&target) {
                successors.push(target)?;
            }
        }
        builder.push(owner, priority, &successors)?;
    }
    builder.game(alloc)
}
