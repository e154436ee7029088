//! The program `pbsolve`: its library on the process's words and standard streams.
#![tactic(auto)]

mod progress;

use pb_command_files::SystemFiles;
use pb_sorts::{In, Out};
use pbsolve::{ProgramFault, Streams};
use progress::ProgressLines;
use std::io::ErrorKind;
use std::process::ExitCode;
use std::{env, io};

// The words, without `collect`: that asks again for less where it is refused.
fn words(rt: &HostRuntime) -> io::Result<Vec<String>> {
    let mut words = Vec::new(rt.alloc());
    for word in env::args(rt)? {
        words.push(word)?;
    }
    Ok(words)
}

// Why there are no words: no memory for them, or one that is no text.
fn words_fault(error: &io::Error) -> ProgramFault {
    if error.kind() == ErrorKind::OutOfMemory {
        ProgramFault::M01
    } else {
        ProgramFault::U01
    }
}

fn main(rt: HostRuntime) -> ExitCode {
    let mut streams = Streams {
        input: In::new(rt.reader()),
        files: SystemFiles::new(&rt),
        output: Out::new(rt.stdout()),
        error: Out::new(rt.stderr()),
    };
    let gate = ProgressLines::new(&rt);
    let code = match words(&rt) {
        Ok(words) => pbsolve::run(&rt, rt.alloc(), words.as_slice(), &gate, &mut streams),
        Err(error) => u8::from(pbsolve::tell_fault(words_fault(&error), &mut streams.error)),
    };
    ExitCode::from(code)
}
