//! What a player has won of a subgame that is solved component by component.

use crate::workspace::Workspace;
use pb_game::Player;

/// What a player has won of the components so far.
#[derive(Clone, Copy)]
pub(crate) struct Share {
    pub player: Player,
    pub label: u32,
    /// The priority of the player's counts, and the greatest so far.
    pub priority: Option<u32>,
    pub greatest: u64,
}

impl Share {
    /// Takes in a vertex with the count behind this one.
    pub fn take(&mut self, space: &mut Workspace, v: u32, count: u64) {
        let count = count.saturating_add(1);
        space.label.set(v, self.label);
        space.draft.set_count(v, self.priority, count);
        self.greatest = self.greatest.max(count);
    }
}
