//! Files that are named: each is answered as standard input would be, and where there are several,
//! each line follows its file's name.
ghost use Rattle.std.specs.Prelude.{◌≡◌, ◌≢◌, [], IfOk, OnOk, map, string_bytes};
ghost use Rattle.pb_command_line.specs.Words.{request_files};
ghost use Rattle.pbsolve.specs.Files.{AnswersFiles, are_several, is_lost, known_files};
ghost use Rattle.pbsolve.specs.Endings.{AddsFile, AnswersFile, EndsFiles, IsRefusal, LeavesFiles};
ghost use Rattle.pbsolve.specs.Endings.{ReportsFile, ends_run};

use crate::ended::Ended;
use crate::program::{answer, tell};
use crate::run_error::RunError;
use pb_command_faults::ProgramFault;
use pb_command_files::{Buffer, NamedFiles, label, push_labelled};
use pb_command_line::{Request, Status};
use pb_command_modules::deliver;
use pb_command_solver::{Context, Progress};
use pb_command_texts::ShortInput;
use pb_sorts::Sink;
use std::alloc::{AllocError, Global};
use std::thread::Threads;

/// What becomes of a file, or of several: the exit status, the lines on standard output, and those
/// on standard error.
#[derive(Drop)]
pub(crate) struct FileReport {
    pub status: Status,
    pub written: Vec<u8>,
    pub diagnostics: Vec<u8>,
}

// Whether the status is that of a file that couldn't be read.
fn is_lost(status: Status) -> bool
    ensures { result ≡ is_lost status }
{
    match status {
        Status::Failed => true,
        _ => false,
    }
}

// Whether the lines of files need their names.
fn are_several(names: &[String]) -> bool
    ensures { result ≡ are_several (map string_bytes names.now) }
{
    match names {
        [] => false,
        [_] => false,
        _ => true,
    }
}

// What is asked, of the bytes of a file: which is no page, since files are named.
fn answer_file<T: Threads + Sync, G: Progress + Sync, F: NamedFiles, O: Sink>(
    context: &Context<'_, T, G>,
    request: &Request,
    name: &str,
    files: &mut F,
    out: &mut O,
) -> Result<Status, RunError>
    requires named { request_files request.now ≢ [] }
    ensures { AnswersFile request.now name.now F.NamedFiles files.old files.new result
        O.Sink out.old out.new }
{
    let input = files.read(context.alloc, name)?;
    let bytes = input.as_slice();
    let status = answer(context, request, ShortInput { bytes }, out)?;
    Ok(status)
}

// Whether no other file is answered either.
fn ends_run(error: &RunError) -> bool
    ensures { result ≡ ends_run error.now }
{
    match error {
        RunError::ProgramFault(ProgramFault::M01) => true,
        RunError::ProgramFault(ProgramFault::E02) => true,
        _ => false,
    }
}

// The line of an error and the status with which it ends a run, where nothing was written.
fn refusal(alloc: Global, error: &RunError) -> Result<FileReport, AllocError>
    ensures { IfOk result (IsRefusal error.now) }
{
    if ends_run(error) {
        return Err(AllocError);
    }
    let mut line = Buffer::new(alloc);
    let status = tell(error, &mut line);
    if line.failed() {
        return Err(AllocError);
    }
    Ok(FileReport {
        status,
        written: Vec::new(alloc),
        diagnostics: line.into_bytes(),
    })
}

// What becomes of a file. Its lines are kept in memory, so that a failed write is a refused request
// for that.
fn report_of<T: Threads + Sync, G: Progress + Sync, F: NamedFiles>(
    context: &Context<'_, T, G>,
    request: &Request,
    name: &str,
    files: &mut F,
) -> Result<FileReport, AllocError>
    requires named { request_files request.now ≢ [] }
    ensures { IfOk result (ReportsFile request.now name.now F.NamedFiles files.old files.new) }
{
    let mut written = Buffer::new(context.alloc);
    match answer_file(context, request, name, files, &mut written) {
        Ok(status) => Ok(FileReport {
            status,
            written: written.into_bytes(),
            diagnostics: Vec::new(context.alloc),
        }),
        Err(error) => refusal(context.alloc, &error),
    }
}

impl FileReport {
    // Appends the lines of a file to those of others.
    fn add(
        &mut self,
        alloc: Global,
        several: bool,
        name: &str,
        report: &FileReport,
    ) -> Result<(), AllocError>
        ensures { OnOk result (AddsFile several name.now report.now self.old self.new) }
    {
        let before = label(alloc, several, name)?;
        push_labelled(
            &mut self.written,
            before.as_slice(),
            report.written.as_slice(),
        )?;
        let is_named = is_lost(report.status) || several;
        let before = label(alloc, is_named, name)?;
        push_labelled(
            &mut self.diagnostics,
            before.as_slice(),
            report.diagnostics.as_slice(),
        )?;
        self.status = self.status.or_worse(report.status);
        Ok(())
    }
}

// What becomes of all files of a request, one after another.
fn report_on<T: Threads + Sync, G: Progress + Sync, F: NamedFiles>(
    context: &Context<'_, T, G>,
    request: &Request,
    files: &mut F,
) -> Result<FileReport, AllocError>
    requires named { request_files request.now ≢ [] }
    ensures answers { IfOk result (λ report.
        AnswersFiles request.now (known_files F.NamedFiles files.old files.new)
        report.status report.diagnostics.items report.written.items) }
    ensures left { IfOk result (λ report.
        LeavesFiles (is_lost report.status) F.NamedFiles files.old files.new) }
{
    let names = request.files();
    let several = are_several(names);
    let mut report = FileReport {
        status: Status::Answered,
        written: Vec::new(context.alloc),
        diagnostics: Vec::new(context.alloc),
    };
    for name in names {
        let name = name.as_str();
        let one = report_of(context, request, name, files)?;
        report.add(context.alloc, several, name, &one)?;
    }
    Ok(report)
}

/// Answers what is asked of files, and writes their lines once all are known.
///
/// # Errors
/// A request for memory was refused, or writing failed. Whatever else is wrong with a file is a
/// line on standard error, beside the lines of the other files.
pub(crate) fn answer_files<T: Threads + Sync, G: Progress + Sync, F: NamedFiles, O: Sink>(
    context: &Context<'_, T, G>,
    request: &Request,
    files: &mut F,
    out: &mut O,
) -> Result<Ended, RunError>
    requires named { request_files request.now ≢ [] }
    ensures { EndsFiles request.now F.NamedFiles files.old files.new result
        O.Sink out.old out.new }
{
    let report = report_on(context, request, files)?;
    deliver(report.written.as_slice(), out)?;
    Ok(Ended {
        status: report.status,
        diagnostics: report.diagnostics,
    })
}
