//! To which vertices the winner's play from a vertex leads, over vertices of brackets alone.

ghost use Rattle.std.specs.Prelude.{◌≡◌, ◌<◌, ◌↔◌, length, IsTrue, OnOk, []};
ghost use Rattle.pb_game.specs.Games.{vertex_count};
ghost use Rattle.pb_game.specs.Certificates.{IsKept};
ghost use Rattle.pb_evidence.specs.Finding.{Gains};
ghost use Rattle.pb_evidence.specs.Searching.{IsOpen, IsSearched};

use crate::found::FoundVertices;
use crate::marked_game::MarkedGame;
use pb_strategy::Position;
use std::alloc::AllocError;

impl MarkedGame<'_> {
    /// Finds to where plays from `v` lead, over vertices of brackets; the nearest first.
    pub(crate) fn search(&self, v: u32, found: &mut FoundVertices) -> Result<(), AllocError>
        requires vertex { v < vertex_count self.now.checked.now.game.now }
        requires width { length found.old.marks.items ≡ vertex_count self.now.checked.now.game.now }
        requires none { found.old.vertices.items ≡ [] }
        ensures { OnOk result (IsSearched self.now.checked.now.game.now
            self.now.checked.now.solution.now self.now.marks.now v found.new) }
    {
        find_next(&self.checked.position(v), found)?;
        let mut next = 0;
        while next < found.vertices.len() {
            let u = found.vertices[next];
            if self.is_open(u) {
                find_next(&self.checked.position(u), found)?;
            }
            next += 1;
        }
        Ok(())
    }

    /// Whether plays go on over `v`: a bracket's vertex, or the true sink, which leads to itself
    /// alone.
    fn is_open(&self, v: u32) -> bool
        requires { v < vertex_count self.now.checked.now.game.now }
        ensures { IsTrue result ↔ IsOpen self.now.checked.now.game.now self.now.marks.now v }
    {
        !self.marks[v as usize] && self.checked.game().priority(v) == 0
    }
}

/// Finds where the kept edges from a position lead.
fn find_next(from: &Position, found: &mut FoundVertices) -> Result<(), AllocError>
    requires { length found.old.marks.items ≡ vertex_count from.now.game.now }
    ensures { OnOk result (Gains (λ u. IsKept from.now.game.now from.now.solution.now
        from.now.number u) found.old found.new) }
{
    for &u in from.game.successors(from.number) {
        if from.keeps(u) {
            found.add(u)?;
        }
    }
    Ok(())
}
