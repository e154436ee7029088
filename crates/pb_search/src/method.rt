//! Which search is asked for.

/// The searches, in the order in which they are worth trying.
#[derive(Clone, Copy, PartialEq, Eq)]
pub enum Search {
    /// Zielonka's recursion (Zielonka 1998), whose levels keep their fronts between turns: linear
    /// on nearly all games that come from models.
    Recursion,
    /// The same, where each level solves the strongly connected components (Tarjan 1972) of its
    /// rest one by one.
    Components,
    /// Priority promotion (Benerecetti, Dell'Erba, Mogavero 2018), with a measure of its strategies
    /// by nested components.
    Promotion,
}
