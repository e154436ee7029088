//! The command line as clap reads it: which words each command takes.
ghost use Rattle.std.specs.Prelude.{◌≡◌, IfOk};
ghost use Rattle.clap.specs.Simple.{App, Shape, app_of, new_shape, with_subcommand};
ghost use Rattle.pb_command_line.specs.Line.{IsOwnCommand, IsOwnOption};
ghost use Rattle.pb_command_line.specs.Line.{bare_program, checking_shape, command_line};
ghost use Rattle.pb_command_line.specs.Line.{counting_shape, deciding_shape};
ghost use Rattle.pb_command_line.specs.Line.{exploring_shape, reached_rule};
ghost use Rattle.pb_command_line.specs.Line.{explaining_shape, rule_shape, showing_shape};
ghost use Rattle.pb_command_line.specs.Line.{solving_shape, translating_shape, usage_shape};
ghost use Rattle.pb_command_line.specs.Line.{counts_rule, files_rule, lines_rule, number_rule};
ghost use Rattle.pb_command_line.specs.Line.{places_rule};
ghost use Rattle.pb_command_line.specs.Line.{progress_rule, properties_rule, property_rule};
ghost use Rattle.pb_command_line.specs.Line.{solver_rule};
ghost use Rattle.pb_command_line.specs.Line.{status_rule, symmetry_rule, topic_rule, workers_rule};

use clap::{Arg, ArgAction};
use std::alloc::{AllocError, Global};

// The option `--workers`, with any word: which words are numbers of workers is seen below.
fn workers_option<'a>(alloc: Global) -> Arg<'a>
    ensures { IsOwnOption workers_rule result }
{
    Arg::new(alloc, "workers").long("workers")
}

// The option `--progress`, with no value.
fn progress_option<'a>(alloc: Global) -> Arg<'a>
    ensures { IsOwnOption progress_rule result }
{
    Arg::new(alloc, "progress")
        .long("progress")
        .action(ArgAction::SetTrue)
}

// The option `--solver`, with any word.
fn solver_option<'a>(alloc: Global) -> Arg<'a>
    ensures { IsOwnOption solver_rule result }
{
    Arg::new(alloc, "solver").long("solver")
}

// The option `--places`, with no word behind it.
fn places_option<'a>(alloc: Global) -> Arg<'a>
    ensures { IsOwnOption places_rule result }
{
    Arg::new(alloc, "places")
        .long("places")
        .action(ArgAction::SetTrue)
}

// The option `--lines`, with no word behind it.
fn lines_option<'a>(alloc: Global) -> Arg<'a>
    ensures { IsOwnOption lines_rule result }
{
    Arg::new(alloc, "lines")
        .long("lines")
        .action(ArgAction::SetTrue)
}

// The option `--property`, with any word.
fn property_option<'a>(alloc: Global) -> Arg<'a>
    ensures { IsOwnOption property_rule result }
{
    Arg::new(alloc, "property").long("property")
}

// The option `--property`, which may stand several times.
fn properties_option<'a>(alloc: Global) -> Arg<'a>
    ensures { IsOwnOption properties_rule result }
{
    property_option(alloc).action(ArgAction::Append)
}

// The option `--status`, with no word behind it.
fn status_option<'a>(alloc: Global) -> Arg<'a>
    ensures { IsOwnOption status_rule result }
{
    Arg::new(alloc, "status")
        .long("status")
        .action(ArgAction::SetTrue)
}

// The option `--counts`, with no word behind it.
fn counts_option<'a>(alloc: Global) -> Arg<'a>
    ensures { IsOwnOption counts_rule result }
{
    Arg::new(alloc, "counts")
        .long("counts")
        .action(ArgAction::SetTrue)
}

// The option `--symmetry`, with no word after it.
fn symmetry_option<'a>(alloc: Global) -> Arg<'a>
    ensures { IsOwnOption symmetry_rule result }
{
    Arg::new(alloc, "symmetry")
        .long("symmetry")
        .action(ArgAction::SetTrue)
}

// The option `--reached`, with no word behind it.
fn reached_option<'a>(alloc: Global) -> Arg<'a>
    ensures { IsOwnOption reached_rule result }
{
    Arg::new(alloc, "reached")
        .long("reached")
        .action(ArgAction::SetTrue)
}

// The files, of which there may be any number.
fn file_words<'a>(alloc: Global) -> Arg<'a>
    ensures { IsOwnOption files_rule result }
{
    Arg::new(alloc, "file").action(ArgAction::Append)
}

// The number of a rule, which has to stand there.
fn number_word<'a>(alloc: Global) -> Arg<'a>
    ensures { IsOwnOption number_rule result }
{
    Arg::new(alloc, "number").required(true)
}

// The command whose usage is printed, which may be left out.
fn topic_word<'a>(alloc: Global) -> Arg<'a>
    ensures { IsOwnOption topic_rule result }
{
    Arg::new(alloc, "command")
}

// A command that has no words of its own.
fn plain<'a>(alloc: Global, name: &'a str) -> clap::Command<'a>
    ensures { IsOwnCommand (new_shape name.now) result }
{
    clap::Command::new(alloc, name)
}

// A command that takes the number of workers, and prints progress.
fn exploring<'a>(alloc: Global, name: &'a str) -> Result<clap::Command<'a>, AllocError>
    ensures { IfOk result (IsOwnCommand (exploring_shape name.now)) }
{
    plain(alloc, name)
        .arg(workers_option(alloc))?
        .arg(progress_option(alloc))
}

// A command that takes the number of workers, and tells places.
fn explaining<'a>(alloc: Global, name: &'a str) -> Result<clap::Command<'a>, AllocError>
    ensures { IfOk result (IsOwnCommand (explaining_shape name.now)) }
{
    exploring(alloc, name)?.arg(places_option(alloc))
}

// A command that takes the number of workers and the solver.
fn solving<'a>(alloc: Global, name: &'a str) -> Result<clap::Command<'a>, AllocError>
    ensures { IfOk result (IsOwnCommand (solving_shape name.now)) }
{
    exploring(alloc, name)?.arg(solver_option(alloc))
}

// A command that takes `--reached` beside its other options.
fn counting<'a>(
    alloc: Global,
    command: Result<clap::Command<'a>, AllocError>,
) -> Result<clap::Command<'a>, AllocError>
    ensures { (shape : Shape) → IfOk command.entry (IsOwnCommand shape)
        → IfOk result (IsOwnCommand (counting_shape shape)) }
{
    command?.arg(reached_option(alloc))
}

// A command that takes the name of a property, and files.
fn translating<'a>(alloc: Global, name: &'a str) -> Result<clap::Command<'a>, AllocError>
    ensures { IfOk result (IsOwnCommand (translating_shape name.now)) }
{
    plain(alloc, name)
        .arg(property_option(alloc))?
        .arg(file_words(alloc))
}

// A command that takes the number of workers, the name of a property and files, and writes lines
// of instances.
fn showing<'a>(alloc: Global, name: &'a str) -> Result<clap::Command<'a>, AllocError>
    ensures { IfOk result (IsOwnCommand (showing_shape name.now)) }
{
    exploring(alloc, name)?
        .arg(property_option(alloc))?
        .arg(lines_option(alloc))?
        .arg(file_words(alloc))
}

// A command that takes the number of workers, the solver and the names of properties.
fn deciding<'a>(alloc: Global, name: &'a str) -> Result<clap::Command<'a>, AllocError>
    ensures { IfOk result (IsOwnCommand (deciding_shape name.now)) }
{
    solving(alloc, name)?.arg(properties_option(alloc))
}

// A command that takes these and files, reports the verdicts by the exit status, and counts, and
// uses symmetry.
fn checking<'a>(alloc: Global, name: &'a str) -> Result<clap::Command<'a>, AllocError>
    ensures { IfOk result (IsOwnCommand (checking_shape name.now)) }
{
    deciding(alloc, name)?
        .arg(status_option(alloc))?
        .arg(counts_option(alloc))?
        .arg(symmetry_option(alloc))?
        .arg(file_words(alloc))
}

// A command that takes the number of a rule.
fn rule<'a>(alloc: Global, name: &'a str) -> Result<clap::Command<'a>, AllocError>
    ensures { IfOk result (IsOwnCommand (rule_shape name.now)) }
{
    plain(alloc, name).arg(number_word(alloc))
}

// A command that takes the word of a command, or none.
fn usage<'a>(alloc: Global, name: &'a str) -> Result<clap::Command<'a>, AllocError>
    ensures { IfOk result (IsOwnCommand (usage_shape name.now)) }
{
    plain(alloc, name).arg(topic_word(alloc))
}

// The program without its commands, of which it needs one.
fn bare_program<'a>(alloc: Global) -> clap::Command<'a>
    ensures { app_of result ≡ bare_program }
{
    clap::Command::new(alloc, "pbsolve").subcommand_required(true)
}

// A command line with one more command, where memory was refused for neither: so a line of many
// commands has one way out, here.
fn with<'a>(
    line: Result<clap::Command<'a>, AllocError>,
    command: Result<clap::Command<'a>, AllocError>,
) -> Result<clap::Command<'a>, AllocError>
    ensures { (app : App) (shape : Shape) → IfOk line.entry (λ c. app_of c ≡ app)
        → IfOk command.entry (IsOwnCommand shape)
        → IfOk result (λ c. app_of c ≡ with_subcommand app shape) }
{
    line?.subcommand(command?)
}

// The command line as clap reads it.
pub(crate) fn command_line<'a>(alloc: Global) -> Result<clap::Command<'a>, AllocError>
    ensures { IfOk result (λ c. app_of c ≡ command_line) }
{
    let line = Ok(bare_program(alloc));
    let line = with(line, counting(alloc, solving(alloc, "solve")));
    let line = with(line, counting(alloc, exploring(alloc, "game")));
    let line = with(line, counting(alloc, solving(alloc, "solution")));
    let line = with(line, counting(alloc, solving(alloc, "certificate")));
    let line = with(line, counting(alloc, explaining(alloc, "explain")));
    let line = with(line, counting(alloc, Ok(plain(alloc, "compile"))));
    let line = with(line, counting(alloc, Ok(plain(alloc, "verify"))));
    let line = with(line, counting(alloc, Ok(plain(alloc, "list"))));
    let line = with(line, counting(alloc, solving(alloc, "solve-code")));
    let line = with(line, translating(alloc, "translate"));
    let line = with(line, checking(alloc, "check"));
    let line = with(line, showing(alloc, "why"));
    let line = with(line, translating(alloc, "size"));
    let line = with(line, rule(alloc, "rule"));
    let line = with(line, usage(alloc, "usage"));
    with(line, Ok(plain(alloc, "version")))
}
