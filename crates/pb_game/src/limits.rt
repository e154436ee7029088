//! How many vertices any game may have. Parts that a caller gives have a lower limit (G01), that of
//! `pb_base`, and so have games whose declared instances count.

/// How many vertices a game may have: twice as many are below 2^32, and twice their square is below
/// 2^64.
pub const MAX_GAME_VERTICES: usize = 1_073_741_824;
