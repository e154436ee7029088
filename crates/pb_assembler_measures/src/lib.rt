//! How much the code of each equation takes of the machine's limits, counted before any code is
//! made, and the first equation whose code exceeds one. What the compiler decides alike where it
//! counts and where it writes stands here too: which formulas are tests, which arguments are
//! tested, and the kinds of brackets. `specs/Excess.antt` says which texts are refused.
#![tactic(auto)]

mod argument;
mod bracket;
mod callee;
pub mod compile_error;
mod first_excess;
mod measure_equation;
mod measure_formula;
mod measure_load;
mod measure_tally;
mod measure_term;
mod measures;
mod test;

pub use argument::{any_tested, tested_range};
pub use bracket::{junction_of, outermost};
pub use callee::parameters_of;
pub use compile_error::{CompileError, Excess};
pub use first_excess::measures_within_limits;
pub use measures::Measures;
pub use test::{Test, as_test};
