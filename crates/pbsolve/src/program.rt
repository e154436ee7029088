//! The whole program: words, input, answer, exit status.
ghost use Rattle.std.specs.Prelude.{◌≡◌, ◌≢◌, ◌≤◌, ◌⊎◌, ℕ, List, true, codes, map};
ghost use Rattle.std.specs.Prelude.{option_copied, option_map, string_bytes};
ghost use Rattle.pb_command_faults.specs.Lines.{line_of};
ghost use Rattle.pb_command_line.specs.Words.{HaveFault, AskNothing, AskPlainly};
ghost use Rattle.pb_command_line.specs.Status.{code_of};
ghost use Rattle.pbsolve.specs.Program.{AskForFiles, AskOfInput, LackProperty, Tells};
ghost use Rattle.pbsolve.specs.Program.{WritesDiagnostics, is_answer};
ghost use Rattle.pbsolve.specs.Requests.{error_line_of, fault_status, status_of};
ghost use Rattle.pbsolve.specs.Endings.{AnswersRequest, AnswersTask, AttemptsAnswer, EndsInput};
ghost use Rattle.pbsolve.specs.Endings.{FailsRun, IsAnswered, IsRefusedRun, IsWrongRun};
ghost use Rattle.pbsolve.specs.Endings.{ReadsInput, known_in};
ghost use Rattle.pb_command_line.specs.declared.status.Status.{Status};

use crate::ended::Ended;
use crate::files::answer_files;
use crate::run_error::RunError;
use crate::streams::Streams;
use pb_base::MAX_INPUT_BYTES;
use pb_command_faults::{ErrorLine, ProgramFault, SolveError};
use pb_command_files::NamedFiles;
use pb_command_line::{Request, Status, Task, request_of};
use pb_command_models::{WhyOptions, check_text, translate_text, why_text};
use pb_command_modules::{deliver, list_code, solve_code, verify_code};
use pb_command_sizes::size_text;
use pb_command_solver::{Context, Progress, Workers};
use pb_command_texts::{
    ExplainOptions, ShortInput, TextInput, certificate_of, compile_text, explain_text, game_of,
    solution_of, solve_options, solve_text,
};
use pb_sorts::{InputError, Sink, Source, put, read_input};
use std::alloc::Global;
use std::convert::AsStr;
use std::thread::Threads;

// What is asked of an input but for verdicts, of these bytes.
fn task_answer<R: Threads + Sync, G: Progress + Sync, O: Sink>(
    context: &Context<'_, R, G>,
    task: &Task,
    input: ShortInput<'_>,
    out: &mut O,
) -> Result<(), SolveError>
    ensures { AnswersTask task.now input.entry.bytes.now result O.Sink out.old out.new }
{
    match task {
        Task::Solve(options, counting) => {
            let counting = *counting;
            let text = TextInput { input, counting };
            solve_text(context, text, solve_options(*options), out)?;
            Ok(())
        }
        Task::Game(options, counting) => {
            let counting = *counting;
            let workers = Workers {
                count: options.workers,
            };
            game_of(context, TextInput { input, counting }, workers, out)
        }
        Task::Solution(options, counting) => {
            let counting = *counting;
            let text = TextInput { input, counting };
            solution_of(context, text, solve_options(*options), out)
        }
        Task::Certificate(options, counting) => {
            let counting = *counting;
            let text = TextInput { input, counting };
            certificate_of(context, text, solve_options(*options), out)
        }
        Task::Explain(options, counting) => {
            let counting = *counting;
            let text = TextInput { input, counting };
            let workers = Workers {
                count: options.workers,
            };
            let places = options.places;
            explain_text(context, text, ExplainOptions { workers, places }, out)
        }
        Task::Compile(counting) => {
            let counting = *counting;
            compile_text(context.alloc, TextInput { input, counting }, out)
        }
        Task::Verify(counting) => verify_code(context.alloc, input.bytes, *counting, out),
        Task::List(counting) => list_code(context.alloc, input.bytes, *counting, out),
        Task::SolveCode(options, counting) => {
            solve_code(
                context,
                input.bytes,
                *counting,
                solve_options(*options),
                out,
            )?;
            Ok(())
        }
        Task::Translate(options) => {
            translate_text(context.alloc, input, name_of(&options.property), out)
        }
        Task::Why(options) => {
            let workers = Workers {
                count: options.workers,
            };
            let lines = options.lines;
            let shown = WhyOptions { workers, lines };
            why_text(context, input, name_of(&options.property), shown, out)
        }
        Task::Size(options) => {
            size_text(context.alloc, input.bytes, name_of(&options.property), out)
        }
    }
}

// The name of the property that is asked for, where one is named.
fn name_of(property: &Option<String>) -> Option<&str>
    ensures { option_copied result ≡ option_map string_bytes property.now }
{
    match property {
        Some(name) => Some(name.as_str()),
        None => None,
    }
}

/// What is asked, of these bytes, and how the run ends then.
pub(crate) fn answer<R: Threads + Sync, G: Progress + Sync, O: Sink>(
    context: &Context<'_, R, G>,
    request: &Request,
    input: ShortInput<'_>,
    out: &mut O,
) -> Result<Status, SolveError>
    ensures { AnswersRequest request.now input.entry.bytes.now result O.Sink out.old out.new }
{
    match request {
        Request::Page(page) => {
            let page = *page;
            deliver(page.words().as_bytes(), out)?;
            Ok(Status::Answered)
        }
        Request::Check(options) => check_text(context, input, options, out),
        Request::Input(task) => {
            task_answer(context, task, input, out)?;
            Ok(Status::Answered)
        }
    }
}

// The bytes that are read for a request. No input is read for a page.
fn input_for<R: Source>(
    alloc: Global,
    request: &Request,
    reader: &mut R,
) -> Result<Vec<u8>, InputError>
    ensures { ReadsInput request.now R.Source reader.old reader.new result }
{
    match request {
        Request::Page(_) => Ok(Vec::new(alloc)),
        Request::Check(_) => read_input(alloc, reader),
        Request::Input(_) => read_input(alloc, reader),
    }
}

// What is asked of standard input.
fn answer_input<T: Threads + Sync, R: Source, G: Progress + Sync, O: Sink>(
    context: &Context<'_, T, G>,
    request: &Request,
    reader: &mut R,
    out: &mut O,
) -> Result<Ended, RunError>
    ensures { EndsInput request.now R.Source reader.old reader.new result O.Sink out.old out.new }
{
    let input = input_for(context.alloc, request, reader)?;
    let bytes = input.as_slice();
    let status = answer(context, request, ShortInput { bytes }, out)?;
    let diagnostics = Vec::new(context.alloc);
    Ok(Ended {
        status,
        diagnostics,
    })
}

// Everything but the lines on standard error.
fn attempt<T: Threads + Sync, S: AsStr, G: Progress + Sync, R: Source, F: NamedFiles, O: Sink>(
    context: &Context<'_, T, G>,
    words: &[S],
    reader: &mut R,
    files: &mut F,
    out: &mut O,
) -> Result<Ended, RunError>
    ensures { AttemptsAnswer (map S.text words.now) R.Source reader.old reader.new
        F.NamedFiles files.old files.new O.Sink out.old out.new result }
{
    let request = request_of(context.alloc, words)?;
    if request.shows_progress() {
        context.gate.watch();
    }
    if request.files().is_empty() {
        answer_input(context, &request, reader, out)
    } else {
        answer_files(context, &request, files, out)
    }
}

// What becomes of lines on standard error changes nothing.
fn say<E: Sink>(lines: &[u8], err: &mut E)
    ensures { Tells lines.now E.Sink err.old err.new }
{
    match put(lines, err) {
        Ok(()) => (),
        Err(_) => (),
    }
}

/// Tells of a fault that stands at no place, and answers how the run ended.
///
/// It is what the program does where it can't even have its words: `U01` where they are no text.
pub fn tell_fault<E: Sink>(fault: ProgramFault, err: &mut E) -> Status
    ensures status { result ≡ fault_status fault }
    ensures line { Tells (line_of fault) E.Sink err.old err.new }
{
    say(fault.line().as_bytes(), err);
    match fault {
        ProgramFault::U02 => Status::Refused,
        ProgramFault::U01 => Status::Usage,
        ProgramFault::M01 => Status::OutOfMemory,
        ProgramFault::E01 | ProgramFault::E02 => Status::Failed,
    }
}

/// Writes the line of an error, whatever memory there is, and answers how the run ended.
pub(crate) fn tell<E: Sink>(error: &RunError, err: &mut E) -> Status
    ensures status { result ≡ status_of error.now }
    ensures line { Tells (error_line_of error.now) E.Sink err.old err.new }
{
    match error {
        RunError::ProgramFault(fault) => tell_fault(*fault, err),
        RunError::Refused(fault) => {
            say(fault.error_line().as_str().as_bytes(), err);
            Status::Refused
        }
    }
}

// The lines on files that aren't answered. Where there are none nothing is written.
fn write_diagnostics<E: Sink>(lines: &[u8], err: &mut E)
    ensures { WritesDiagnostics lines.now E.Sink err.old err.new }
{
    if !lines.is_empty() {
        say(lines, err);
    }
}

/// Runs the program, and answers its exit status.
///
/// `words` are those of the command line, the program's name first; `gate` sees each attempt of a
/// worker to take an instance, and to lift a vertex, each part of the work, and whether progress is
/// asked for; `streams` are what it reads and writes.
/// Statuses: 0 answered; 1 the input is refused, or a property that was checked; 2 the words ask
/// for nothing that the program does, or for a property that the model doesn't have; 3 a request
/// for memory was refused; 4 reading or writing failed; where the status is to report the verdicts,
/// 5 a property is false, 6 none is, and of one the ranges decide. With a status from 1 to 4, but
/// where the verdicts were written, one line on the error stream says why, by the number of the
/// fault or the rule and, where there is one, the place.
///
/// Where the words name files, each is answered as standard input would be, with its name before
/// each line if there are several; one that isn't answered has a line on the error stream. Of the
/// statuses that the files alone would have, the run has the first of these: 4, 2, 1, 5, 6, 0.
pub fn run<
    T: Threads + Sync,
    S: AsStr,
    G: Progress + Sync,
    R: Source,
    F: NamedFiles,
    O: Sink,
    E: Sink,
>(rt: &T, alloc: Global, words: &[S], gate: &G, streams: &mut Streams<R, F, O, E>) -> u8
    ensures statuses { result ≤ 6 }

    // The words have a fault exactly where they ask for nothing, which is seen before any byte is
    // read; memory may be refused first. The word of each command asks for it. Without a fault
    // there is status 2 only where they name a property that the model which the input is, or a
    // file, doesn't have.
    ensures faulty { HaveFault (map S.text words.now) → ((result ≡ 2) ⊎ (result ≡ 3))
        × (streams.new.input ≡ streams.old.input) × (streams.new.files ≡ streams.old.files) }
    ensures understood { result ≡ 2 → HaveFault (map S.text words.now)
        ⊎ LackProperty (map S.text words.now) (known_in R.Source F.NamedFiles
        streams.old streams.new) }
    ensures asked { AskPlainly (map S.text words.now) → result ≢ 2 }
    ensures unasked { AskNothing (map S.text words.now) → (result ≡ 2) ⊎ (result ≡ 3) }

    // Answered, with status 0, 5 or 6: what is asked for went out, with the status that belongs to
    // it, and nothing on standard error.
    ensures answered { (end : Status) → is_answer end ≡ true → result ≡ code_of end →
        IsAnswered (map S.text words.now) end R.Source F.NamedFiles O.Sink E.Sink
        streams.old streams.new × (streams.new.error ≡ streams.old.error) }

    // Standard input is read only where something is asked of it, and not for a rule, the usage or
    // the version. But for status 4 no read of it failed, and no file but for statuses 3 and 4.
    // Files are read only where the words name some, and then standard input isn't.
    ensures unread { (streams.new.input ≡ streams.old.input)
        ⊎ AskOfInput (map S.text words.now) }
    ensures read { result ≢ 4 → R.has_failed streams.new.input ≡ R.has_failed streams.old.input }
    ensures files_read { result ≢ 3 → result ≢ 4 → (name : List ℕ) →
        F.has_failed streams.new.files name ≡ F.has_failed streams.old.files name }
    ensures apart { (streams.new.files ≡ streams.old.files)
        ⊎ (AskForFiles (map S.text words.now) × (streams.new.input ≡ streams.old.input)) }

    // Refused: nothing went out, and a line tells why; or a property that was checked is, or a
    // file, and the other lines went out.
    ensures refused { result ≡ 1 → IsRefusedRun (map S.text words.now) R.Source F.NamedFiles
        O.Sink E.Sink streams.old streams.new }

    // Not understood: nothing went out, and a line says so; or some file's model has no property of
    // a name. No memory: nothing went out, and a line says so.
    ensures usage { result ≡ 2 → IsWrongRun (map S.text words.now) R.Source F.NamedFiles
        O.Sink E.Sink streams.old streams.new }
    ensures silent { result ≡ 3 → streams.new.output ≡ streams.old.output }
    ensures memory { result ≡ 3 → Tells (codes "M01\n") E.Sink streams.old.error streams.new.error }

    // Reading failed before the limit was passed, with nothing written, or a file couldn't be read,
    // or writing failed, and no read did.
    ensures failed { result ≡ 4 → FailsRun (map S.text words.now) R.Source F.NamedFiles
        O.Sink E.Sink streams.old streams.new }
{
    let context = Context { rt, alloc, gate };
    match attempt(
        &context,
        words,
        &mut streams.input,
        &mut streams.files,
        &mut streams.output,
    ) {
        Ok(ended) => {
            write_diagnostics(ended.diagnostics.as_slice(), &mut streams.error);
            u8::from(ended.status)
        }
        Err(error) => u8::from(tell(&error, &mut streams.error)),
    }
}
