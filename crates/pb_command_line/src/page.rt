//! What is written of the program itself.
ghost use Rattle.std.specs.Prelude.{◌≡◌, None};
ghost use Rattle.pb_command_line.specs.Pages.{HasLineOf, page_words};
ghost use Rattle.pb_command_line.specs.declared.command.Command.{Command};
ghost use Rattle.pb_command_line.specs.declared.page.Page.TheVariants as page;

use crate::command::Command;
use crate::usages::{USAGE, VERSION};
use pb_command_rules::Rule;

/// A page of what the program knows of itself; no input is read for it.
#[derive(Clone, Copy)]
pub enum Page {
    /// The text of a rule.
    Rule(Rule),
    /// What a command takes and writes; of the program, which commands there are.
    Usage(Option<Command>),
    /// Which version of the program this is.
    Version,
}

impl Page {
    /// Its lines.
    pub fn words(self) -> &'static str
        ensures { result.now ≡ page_words self }
    {
        match self {
            Page::Rule(rule) => rule.words(),
            Page::Usage(None) => USAGE,
            Page::Usage(Some(command)) => command.usage(),
            Page::Version => VERSION,
        }
    }
}

/// The usage of the program has a line for each command.
pub fn usage_has_each_command()
    ensures { (command : Command) → HasLineOf (page_words (page.Usage None)) command }
{}
