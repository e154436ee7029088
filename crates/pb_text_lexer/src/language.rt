//! The languages whose tokens are cut: that of texts, and that of models, which has more symbols
//! and more reserved words.

/// A language of parameterised Boolean equation systems, or of models of protocols.
#[derive(Clone, Copy, PartialEq, Eq)]
pub enum Language {
    /// Texts of equation systems.
    Text,
    /// Models, with their properties.
    Model,
}
