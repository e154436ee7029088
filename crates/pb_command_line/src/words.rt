//! The words of the command line.
ghost use Rattle.std.specs.Prelude.{◌≡◌, ℕ, List, [], map, IfOk, MatchOption, IsSomeAnd, None};
ghost use Rattle.clap.specs.Faults.{fault_of};
ghost use Rattle.clap.specs.Matches.{found_of};
ghost use Rattle.clap.specs.Walk.{rows_of};
ghost use Rattle.clap.specs.Words.{kind_of};
ghost use Rattle.pb_base.specs.OrMemory.{OnRefused};
ghost use Rattle.pb_command_line.specs.Options.{HasOptions};
ghost use Rattle.pb_command_line.specs.Words.{AskFor, AskNothing, AskPlainly, HaveFault};
ghost use Rattle.pb_command_line.specs.Commands.{command_name};
ghost use Rattle.pb_command_line.specs.Line.{command_line};
ghost use Rattle.pb_command_line.specs.Words.{NameFiles, command_of, named_files};
ghost use Rattle.pb_command_line.specs.Words.{property_names, request_files, words_error_of};
ghost use Rattle.pb_command_line.specs.declared.command.Command.{Command};
ghost use Rattle.pb_command_line.specs.declared.request.Request.{Request};

use crate::command::Command;
use crate::line::command_line;
use crate::page::Page;
use crate::read::{
    checking_of, counting_of, explaining_of, exploring_of, rule_of, showing_of, solving_of,
    translating_of, usage_of,
};
use crate::request::{Request, Task};
use clap::error::ErrorKind;
use clap::{ArgMatches, Error};
use pb_base::{Fault, OrMemory};
use pb_sorts::Counting;
use std::alloc::Global;
use std::convert::AsStr;

/// `U01`: no command, an unknown one, also after `usage`, a word too many, a wrong number of
/// workers, an unknown solver, no number of a rule or an unknown one, or a call for help.
#[derive(Clone, Copy, Debug, PartialEq, Eq)]
pub struct Usage;

impl Fault for Usage {}

/// Why the words ask nothing.
pub type WordsError = OrMemory<Usage>;

// What clap refuses is one of usage, unless memory was refused to it.
fn words_error(error: Error) -> WordsError
    ensures { result ≡ words_error_of (kind_of error) }
{
    match error.kind() {
        ErrorKind::OutOfMemory => WordsError::Memory,
        _ => WordsError::Refused(Usage),
    }
}

// What a command asks with options that could be read, and by which instances count.
fn counted<T, F: FnOnce(T, Counting) -> Task>(
    options: Option<T>,
    counting: Counting,
    task: F,
) -> Option<Task>
    requires { F.IsAlwaysCallable task }
    ensures { MatchOption options (result ≡ None)
        (λ read. IsSomeAnd result (F.post task read counting)) }
{
    match options {
        Some(options) => Some(task(options, counting)),
        None => None,
    }
}

// What a command asks with its options. Each command that takes options needs some that can be
// read.
fn request_for(alloc: Global, command: Command, options: &ArgMatches) -> Result<Request, WordsError>
    ensures command { IfOk result (λ request. command_of request ≡ command) }
    ensures read { IfOk result (HasOptions (rows_of (found_of options.now))) }
    ensures none { OnRefused result ((request : Request) → command_of request ≡ command
        → HasOptions (rows_of (found_of options.now)) request → ⊥) }
{
    let counting = counting_of(options);
    let task = match command {
        Command::Solve => counted(solving_of(options), counting, Task::Solve),
        Command::Game => counted(exploring_of(options), counting, Task::Game),
        Command::Solution => counted(solving_of(options), counting, Task::Solution),
        Command::Certificate => counted(solving_of(options), counting, Task::Certificate),
        Command::Explain => counted(explaining_of(options), counting, Task::Explain),
        Command::Compile => Some(Task::Compile(counting)),
        Command::Verify => Some(Task::Verify(counting)),
        Command::List => Some(Task::List(counting)),
        Command::SolveCode => counted(solving_of(options), counting, Task::SolveCode),
        Command::Translate => Some(Task::Translate(translating_of(alloc, options)?)),
        Command::Check => return Ok(Request::Check(checking_of(alloc, options)?)),
        Command::Why => Some(Task::Why(showing_of(alloc, options)?)),
        Command::Size => Some(Task::Size(translating_of(alloc, options)?)),
        Command::Rule => {
            let page = rule_of(options).map(Page::Rule);
            return page.map(Request::Page).ok_or(Usage.into());
        }
        Command::Usage => {
            let page = usage_of(options).map(Page::Usage);
            return page.map(Request::Page).ok_or(Usage.into());
        }
        Command::Version => return Ok(Request::Page(Page::Version)),
    };
    task.map(Request::Input).ok_or(Usage.into())
}

// What the words ask, by what `clap` makes of them.
fn request_in<S: AsStr>(alloc: Global, words: &[S]) -> Result<Request, WordsError>
    ensures asked { IfOk result (AskFor (map S.text words.now)) }
    ensures faulty { OnRefused result (HaveFault (map S.text words.now)) }
{
    let matches = match command_line(alloc)?.try_get_matches_from(words) {
        Ok(matches) => matches,
        Err(error) => return Err(words_error(error)),
    };
    let Some((name, options)) = matches.subcommand() else {
        return Err(Usage.into());
    };
    match Command::named(name) {
        Some(command) => request_for(alloc, command, options),
        None => Err(Usage.into()),
    }
}

/// What the words ask, the first of them being the program's name: a page of the program itself, or
/// a command with the options that it takes.
///
/// # Errors
/// `Usage` exactly where the words have a fault, unless memory is refused first: where `clap`
/// refuses them, an option names no such number or no solver, a number is no rule's, or a word
/// after `usage` no command's.
pub fn request_of<S: AsStr>(alloc: Global, words: &[S]) -> Result<Request, WordsError>
    ensures asked { IfOk result (AskFor (map S.text words.now)) }
    ensures faulty { OnRefused result (HaveFault (map S.text words.now)) }

    // The word of each command that needs no other asks for that alone, of standard input; no word,
    // or one that is none's, has a fault.
    ensures understood { AskPlainly (map S.text words.now) → OnRefused result ⊥ }
    ensures nameless { AskPlainly (map S.text words.now)
        → IfOk result (λ request. property_names request ≡ []) }
    ensures fileless { AskPlainly (map S.text words.now)
        → IfOk result (λ request. request_files request ≡ []) }
    ensures refused { AskNothing (map S.text words.now) → IfOk result (λ request. ⊥) }

    // The words after a command that takes files are their names, and such names are no fault.
    ensures faultless { (files : List (List ℕ)) → NameFiles (map S.text words.now) files
        → fault_of command_line (map S.text words.now) ≡ [] }
    ensures named { (files : List (List ℕ)) → NameFiles (map S.text words.now) files
        → IfOk result (λ request. named_files request ≡ files) }
{
    request_in(alloc, words)
}
