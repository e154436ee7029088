//! What commands do with a module: with one that is verified, and with one that is given by its
//! bytes. No text is read here, so that what is said of modules rests on no text.
#![tactic(auto)]

mod code;
mod delivery;
mod laws;
mod module;

pub use code::{list_code, solve_code, verify_code};
pub use delivery::deliver;
pub use laws::bytes_spell_one_module;
pub use module::{
    explained, write_certificate, write_evidence, write_game, write_report, write_solution,
};
