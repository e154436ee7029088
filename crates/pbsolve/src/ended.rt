//! How a run ends that wasn't cut short by an error.

use pb_command_line::Status;

/// The status of a run, and the lines on standard error of files that aren't answered.
#[derive(Drop)]
pub(crate) struct Ended {
    pub status: Status,
    pub diagnostics: Vec<u8>,
}
