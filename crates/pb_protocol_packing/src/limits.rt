//! How large a group of variables may be.

/// How many values the variables of a group may have together (T12): the variable that they become
/// has a range, whose bounds are signed numbers of 32 bits. A value within 2^31 of its variable's
/// lowest, times what it counts in the group's number, is below 2^62 then, as values of data terms
/// have to be (T10).
pub const MAX_GROUP_VALUES: u32 = 2_147_483_647;
