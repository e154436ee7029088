//! The options of a command, as clap read them.
ghost use Rattle.std.specs.Prelude.{◌≡◌, ◌<◌, ◌≤◌, ℕ, codes, map, [], IfOk, IfSome, IfNone};
ghost use Rattle.std.specs.Prelude.{Option};
ghost use Rattle.std.specs.Prelude.{option_copied, option_map, string_bytes, unwrap_or};
ghost use Rattle.clap.specs.Matches.{found_of};
ghost use Rattle.clap.specs.Walk.{all_of, first_of, rows_of};
ghost use Rattle.pb_base.specs.OrMemory.{OnRefused};
ghost use Rattle.pb_game.specs.declared.solver.Solver.{Solver};
ghost use Rattle.pb_command_rules.specs.declared.rule.Rule.{Rule};
ghost use Rattle.pb_command_line.specs.declared.command.Command.{Command};
ghost use Rattle.pb_command_line.specs.declared.options.Checking.{Checking};
ghost use Rattle.pb_command_line.specs.declared.options.Explaining.{Explaining};
ghost use Rattle.pb_command_line.specs.declared.options.Exploring.{Exploring};
ghost use Rattle.pb_command_line.specs.declared.options.Showing.{Showing};
ghost use Rattle.pb_command_line.specs.declared.options.Solving.{Solving};
ghost use Rattle.pb_command_line.specs.Options.{AreWordsAt, IsCheckingOf, IsChosenBy};
ghost use Rattle.pb_command_line.specs.Options.{IsCountingOf};
ghost use Rattle.pb_command_line.specs.Options.{IsExplainingOf};
ghost use Rattle.pb_command_line.specs.Options.{IsExploringOf, IsRuleOf, IsSetBy, IsShowingOf};
ghost use Rattle.pb_command_line.specs.Options.{IsSolvingOf, IsTranslatingOf, IsUsageOf};
ghost use Rattle.pb_command_line.specs.Options.{IsWorkersOf};

use crate::command::Command;
use crate::options::{Checking, Explaining, Exploring, Showing, Solving, Translating};
use crate::words::{Usage, WordsError};
use clap::ArgMatches;
use pb_base::OrMemory;
use pb_command_rules::Rule;
use pb_game::Solver;
use pb_sorts::Counting;
use std::alloc::{AllocError, Global};

// The word of an option, the first where there are several.
fn word_of<'a>(options: &ArgMatches<'a>, name: &str) -> Option<&'a str>
    ensures { option_copied result ≡ first_of name.now (rows_of (found_of options.now)) }
{
    options.get_str(name)
}

// How many workers a command is given, 1 where the words don't say.
fn workers_of(options: &ArgMatches) -> Option<u32>
    ensures workers { IfSome result
        (IsWorkersOf (first_of (codes "workers") (rows_of (found_of options.now)))) }
    ensures few { IfSome result (λ workers. (0 < workers) × (workers ≤ 16)) }
    ensures none { IfNone result ((workers : ℕ) → IsWorkersOf
        (first_of (codes "workers") (rows_of (found_of options.now))) workers → ⊥) }
{
    let Some(word) = word_of(options, "workers") else {
        return Some(1);
    };
    let Ok(workers) = word.parse::<u32>() else {
        return None;
    };
    if workers == 0 || 16 < workers {
        return None;
    }
    Some(workers)
}

// The solver that a command is given, Zielonka's algorithm where the words don't say.
fn solver_of(options: &ArgMatches) -> Option<Solver>
    ensures chosen { IfSome result
        (IsChosenBy (first_of (codes "solver") (rows_of (found_of options.now)))) }
    ensures none { IfNone result ((solver : Solver) → IsChosenBy
        (first_of (codes "solver") (rows_of (found_of options.now))) solver → ⊥) }
{
    match word_of(options, "solver") {
        None => Some(Solver::Zielonka),
        Some(word) => Solver::named(word),
    }
}

// Whether an option without a word is given to a command.
fn is_set(options: &ArgMatches, name: &str) -> bool
    ensures { IsSetBy (first_of name.now (rows_of (found_of options.now))) result }
{
    word_of(options, name) == Some("true")
}

/// Which instances count against the limit: the reached ones where the option says so, and else all
/// that are declared.
pub(crate) fn counting_of(options: &ArgMatches) -> Counting
    ensures { IsCountingOf (first_of (codes "reached") (rows_of (found_of options.now))) result }
{
    if is_set(options, "reached") {
        Counting::Reached
    } else {
        Counting::Declared
    }
}

// The property that a command is told of.
fn property_of(alloc: Global, options: &ArgMatches) -> Result<Option<String>, AllocError>
    ensures { IfOk result (λ property. option_map string_bytes property
        ≡ first_of (codes "property") (rows_of (found_of options.now))) }
{
    match word_of(options, "property") {
        None => Ok(None),
        Some(word) => Ok(Some(String::from_str(alloc, word)?)),
    }
}

// The words as names.
fn names_of(alloc: Global, words: &[&str]) -> Result<Vec<String>, AllocError>
    ensures { IfOk result (λ names. map string_bytes names.items
        ≡ map (λ word. word.now) words.now) }
{
    let mut names = Vec::new(alloc);
    for word in words {
        names.push(String::from_str(alloc, word)?)?;
    }
    Ok(names)
}

// The values of an option that may be given several times, or the words after a command.
fn names_at(alloc: Global, options: &ArgMatches, id: &str) -> Result<Vec<String>, AllocError>
    ensures { IfOk result (AreWordsAt id.now (rows_of (found_of options.now))) }
{
    match options.get_raw(id) {
        None => Ok(Vec::new(alloc)),
        Some(words) => names_of(alloc, words),
    }
}

/// How is explored, where the option names a number of workers.
pub(crate) fn exploring_of(options: &ArgMatches) -> Option<Exploring>
    ensures read { IfSome result (IsExploringOf (rows_of (found_of options.now))) }
    ensures none { IfNone result ((read : Exploring)
        → IsExploringOf (rows_of (found_of options.now)) read → ⊥) }
{
    let workers = workers_of(options)?;
    let progress = is_set(options, "progress");
    Some(Exploring { workers, progress })
}

/// How is solved, where the options name a number of workers and a solver.
pub(crate) fn solving_of(options: &ArgMatches) -> Option<Solving>
    ensures read { IfSome result (IsSolvingOf (rows_of (found_of options.now))) }
    ensures none { IfNone result ((read : Solving)
        → IsSolvingOf (rows_of (found_of options.now)) read → ⊥) }
{
    let workers = workers_of(options)?;
    let solver = solver_of(options)?;
    let progress = is_set(options, "progress");
    Some(Solving {
        workers,
        progress,
        solver,
    })
}

/// How is explained, where the option names a number of workers.
pub(crate) fn explaining_of(options: &ArgMatches) -> Option<Explaining>
    ensures read { IfSome result (IsExplainingOf (rows_of (found_of options.now))) }
    ensures none { IfNone result ((read : Explaining)
        → IsExplainingOf (rows_of (found_of options.now)) read → ⊥) }
{
    let workers = workers_of(options)?;
    let progress = is_set(options, "progress");
    let places = is_set(options, "places");
    Some(Explaining {
        workers,
        progress,
        places,
    })
}

/// Which property is named, and which files are.
///
/// # Errors
/// Memory was refused.
pub(crate) fn translating_of(alloc: Global, options: &ArgMatches) -> Result<Translating, AllocError>
    ensures { IfOk result (IsTranslatingOf (rows_of (found_of options.now))) }
{
    let property = property_of(alloc, options)?;
    let files = names_at(alloc, options, "file")?;
    Ok(Translating { property, files })
}

/// How is checked, and what.
///
/// # Errors
/// `Usage` where an option names no number of workers or no solver, unless memory was refused
/// first.
pub(crate) fn checking_of(alloc: Global, options: &ArgMatches) -> Result<Checking, WordsError>
    ensures read { IfOk result (IsCheckingOf (rows_of (found_of options.now))) }
    ensures none { OnRefused result ((read : Checking)
        → IsCheckingOf (rows_of (found_of options.now)) read → ⊥) }
{
    let Some(solving) = solving_of(options) else {
        return Err(Usage.into());
    };
    let properties = names_at(alloc, options, "property")?;
    let files = names_at(alloc, options, "file")?;
    Ok(Checking {
        solving,
        properties,
        status: is_set(options, "status"),
        counts: is_set(options, "counts"),
        symmetry: is_set(options, "symmetry"),
        files,
    })
}

/// How is shown, and what.
///
/// # Errors
/// `Usage` where the option names no number of workers, unless memory was refused first.
pub(crate) fn showing_of(alloc: Global, options: &ArgMatches) -> Result<Showing, WordsError>
    ensures read { IfOk result (IsShowingOf (rows_of (found_of options.now))) }
    ensures none { OnRefused result ((read : Showing)
        → IsShowingOf (rows_of (found_of options.now)) read → ⊥) }
{
    let Some(workers) = workers_of(options) else {
        return Err(Usage.into());
    };
    let property = property_of(alloc, options)?;
    let lines = is_set(options, "lines");
    let progress = is_set(options, "progress");
    let files = names_at(alloc, options, "file")?;
    Ok(Showing {
        workers,
        progress,
        property,
        lines,
        files,
    })
}

/// The rule of the number that stands behind a command.
pub(crate) fn rule_of(options: &ArgMatches) -> Option<Rule>
    ensures read { IfSome result (IsRuleOf (rows_of (found_of options.now))) }
    ensures none { IfNone result ((read : Rule)
        → IsRuleOf (rows_of (found_of options.now)) read → ⊥) }
{
    let number = word_of(options, "number")?;
    Rule::numbered(number)
}

/// The command whose usage is printed: the one that is named, or none where no word is.
pub(crate) fn usage_of(options: &ArgMatches) -> Option<Option<Command>>
    ensures read { IfSome result (IsUsageOf (rows_of (found_of options.now))) }
    ensures none { IfNone result ((read : Option Command)
        → IsUsageOf (rows_of (found_of options.now)) read → ⊥) }
{
    match word_of(options, "command") {
        None => Some(None),
        Some(word) => Command::named(word).map(Some),
    }
}
