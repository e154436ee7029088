//! What all parts of the program share: carriers of data, instances and their numbers, and where
//! bytes go and come from.
#![tactic(auto)]

pub mod carrier;
pub mod counting;
mod input;
pub mod instance;
pub mod laws;
pub mod layout;
pub mod sink;
pub mod source;
mod tuple;

pub use carrier::{Carrier, Enumeration, L01, Range};
pub use counting::{Counting, MAX_NUMBERS};
pub use input::{InputError, InputFault, read_input};
pub use instance::{Instance, Tuple};
pub use layout::{Layout, LayoutError, TooManyInstances};
pub use sink::{E02, Out, Sink, put};
pub use source::{E01, In, Source};
pub use tuple::count_tuples;
