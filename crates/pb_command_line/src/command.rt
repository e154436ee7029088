//! The commands of the program.
ghost use Rattle.std.specs.Prelude.{◌≡◌, Some, IfSome};
ghost use Rattle.pb_command_line.specs.Commands.{command_name};

/// What the program can be asked for.
#[derive(Clone, Copy, PartialEq, Eq)]
pub enum Command {
    /// The report of a text.
    Solve,
    /// The game of a text's reached instances.
    Game,
    /// The truth of each reached instance of a text.
    Solution,
    /// The winners of a text's game, with a strategy for each.
    Certificate,
    /// Why the answer to a text is right.
    Explain,
    /// The module of a text.
    Compile,
    /// Whether a module is accepted.
    Verify,
    /// The listing of a module.
    List,
    /// The report of a module.
    SolveCode,
    /// The text of a model's property.
    Translate,
    /// Which properties of a model hold.
    Check,
    /// Why a property of a model holds or doesn't.
    Why,
    /// How large a model is.
    Size,
    /// What a rule says.
    Rule,
    /// What the commands take and write.
    Usage,
    /// Which version of the program this is.
    Version,
}

impl Command {
    ghost use Rattle.pb_command_line.specs.declared.command.Command.{Command};

    /// The word that asks for it.
    pub fn name(self) -> &'static str
        ensures { result.now ≡ command_name self }
    {
        match self {
            Command::Solve => "solve",
            Command::Game => "game",
            Command::Solution => "solution",
            Command::Certificate => "certificate",
            Command::Explain => "explain",
            Command::Compile => "compile",
            Command::Verify => "verify",
            Command::List => "list",
            Command::SolveCode => "solve-code",
            Command::Translate => "translate",
            Command::Check => "check",
            Command::Why => "why",
            Command::Size => "size",
            Command::Rule => "rule",
            Command::Usage => "usage",
            Command::Version => "version",
        }
    }

    /// The command for which a word asks.
    pub(crate) fn named(name: &str) -> Option<Command>
        ensures named { IfSome result (λ command. name.now ≡ command_name command) }
        ensures every { (command : Command) → name.now ≡ command_name command
            → result ≡ Some command }
    {
        match name {
            "solve" => Some(Command::Solve),
            "game" => Some(Command::Game),
            "solution" => Some(Command::Solution),
            "certificate" => Some(Command::Certificate),
            "explain" => Some(Command::Explain),
            "compile" => Some(Command::Compile),
            "verify" => Some(Command::Verify),
            "list" => Some(Command::List),
            "solve-code" => Some(Command::SolveCode),
            "translate" => Some(Command::Translate),
            "check" => Some(Command::Check),
            "why" => Some(Command::Why),
            "size" => Some(Command::Size),
            "rule" => Some(Command::Rule),
            "usage" => Some(Command::Usage),
            "version" => Some(Command::Version),
            _ => None,
        }
    }
}
