//! Tests of pb_normal on texts: normal forms as they are written by hand, and texts at the limits
//! of what is read.

mod forms;
mod limits;
mod texts;
