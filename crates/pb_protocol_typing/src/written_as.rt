//! How the value of a definition is written, where it stands for one without arguments and state.

/// How a value is written.
#[derive(Clone, Copy)]
pub(crate) enum WrittenAs {
    /// A number, and whether a minus stands in front of it.
    Number(bool, u64),
    /// A truth value or an enumerator, which its kind tells.
    OfKind,
    /// Not at all: it is calculated, or the state's.
    Calculated,
}
