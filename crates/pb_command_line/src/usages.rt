//! What `usage` and `version` write: made from docs/MANUAL.md by `.ci/rules`.
ghost use Rattle.std.specs.Prelude.{◌≡◌};

use crate::command::Command;

pub const USAGE: &str = "pbsolve COMMAND [OPTIONS] < INPUT > OUTPUT\n\
\n\
check [FILE ..]      a model: whether each property holds, or each that is\n                     \
named, in the model's order\n\
why [FILE ..]        a model: whether each property holds, and a run that \
shows\n                     \
where it doesn't; for one that is named, why it holds or\n                     \
doesn't\n\
translate [FILE ..]  a model: a property as a text: the one that is named, \
or\n                     \
the first\n\
size [FILE ..]       a model: how many values each variable has, how many \
states\n                     \
and steps that makes, and how many equations each property\n                     \
has, or the one that is named; nothing is explored\n\
solve                a text: the report\n\
game                 a text: the parity game of the reached instances, for\n                     \
PGSolver or oink\n\
certificate          a text: who wins the game of the reached instances, and \
by\n                     \
which strategies\n\
solution             a text: whether each reached instance is true\n\
explain              a text: evidence for the answer, from part of the \
instances\n                     \
where that is enough\n\
compile              a text: its compiled module, in bytes\n\
verify               a module: accepted\n\
list                 a module, accepted or not: its listing\n\
solve-code           a module: the report\n\
rule NUMBER          what the number of a refusal means, what to do, an \
example,\n                     \
and common mistakes with what to write instead\n\
usage [COMMAND]      the commands; or what one of them reads and writes, and \
its\n                     \
options\n\
version              the version of the program\n\
\n\
pbsolve usage COMMAND lists a command's options, pbsolve rule NUMBER explains a\n  \
refusal. The manual: docs/MANUAL.md.\n";

pub const VERSION: &str = "pbsolve 1.0\n";

pub const CHECK_USAGE: &str = "pbsolve check [FILE ..] [--property NAME] [--status] [--counts] \
[--symmetry]\n  \
[--workers N] [--solver NAME] [--progress] < INPUT\n\
Input: a model\n\
Output: whether each property holds, or each that is named, in the model's order\n\
--property NAME: only this property; check accepts the option more than once\n\
--status: report the verdicts by the exit status: 0 if all are true, 5 if one is\n  \
false, 6 if none is false and one is unknown\n\
--counts: after each verdict print how many instances were reached, how many of\n  \
these call one outside the ranges, and how many vertices the game has; after\n  \
all verdicts the steps that no reached state can take\n\
--symmetry: explore one of the states that differ by a permutation of like\n  \
elements of a sort, and after each verdict name the sort and its elements\n\
--workers N: explore by at most N threads, 1 to 16 (1 if not given); the output\n  \
is the same\n\
--solver NAME: solve the game by this algorithm: zielonka (if not given) or lift\n\
--progress: print lines about long work on standard error: after each 2^18\n  \
instances explored, and when building, solving and checking begin\n";

pub const WHY_USAGE: &str = "pbsolve why [FILE ..] [--property NAME] [--lines] [--workers N] \
[--progress]\n  \
< INPUT\n\
Input: a model\n\
Output: whether each property holds, and a run that shows where it doesn't; for\n  \
one that is named, why it holds or doesn't\n\
--property NAME: only this property; check accepts the option more than once\n\
--lines: print the evidence as lines of instances, with the step after each @,\n  \
for tools\n\
--workers N: explore by at most N threads, 1 to 16 (1 if not given); the output\n  \
is the same\n\
--progress: print lines about long work on standard error: after each 2^18\n  \
instances explored, and when building, solving and checking begin\n";

pub const TRANSLATE_USAGE: &str = "pbsolve translate [FILE ..] [--property NAME] < INPUT\n\
Input: a model\n\
Output: a property as a text: the one that is named, or the first\n\
--property NAME: only this property; check accepts the option more than once\n";

pub const SIZE_USAGE: &str = "pbsolve size [FILE ..] [--property NAME] < INPUT\n\
Input: a model\n\
Output: how many values each variable has, how many states and steps that makes,\n  \
and how many equations each property has, or the one that is named; nothing is\n  \
explored\n\
--property NAME: only this property; check accepts the option more than once\n";

pub const SOLVE_USAGE: &str = "pbsolve solve [--workers N] [--solver NAME] [--reached] \
[--progress] < INPUT\n\
Input: a text\n\
Output: the report\n\
--workers N: explore by at most N threads, 1 to 16 (1 if not given); the output\n  \
is the same\n\
--solver NAME: solve the game by this algorithm: zielonka (if not given) or lift\n\
--reached: count only the instances that are reached, as memory holds them: up\n  \
to 2^62 may be declared over all ranges (2^22, reached or not, if not given)\n\
--progress: print lines about long work on standard error: after each 2^18\n  \
instances explored, and when building, solving and checking begin\n";

pub const GAME_USAGE: &str = "pbsolve game [--workers N] [--reached] [--progress] < INPUT\n\
Input: a text\n\
Output: the parity game of the reached instances, for PGSolver or oink\n\
--workers N: explore by at most N threads, 1 to 16 (1 if not given); the output\n  \
is the same\n\
--reached: count only the instances that are reached, as memory holds them: up\n  \
to 2^62 may be declared over all ranges (2^22, reached or not, if not given)\n\
--progress: print lines about long work on standard error: after each 2^18\n  \
instances explored, and when building, solving and checking begin\n";

pub const CERTIFICATE_USAGE: &str = "pbsolve certificate [--workers N] [--solver NAME] \
[--reached] [--progress]\n  \
< INPUT\n\
Input: a text\n\
Output: who wins the game of the reached instances, and by which strategies\n\
--workers N: explore by at most N threads, 1 to 16 (1 if not given); the output\n  \
is the same\n\
--solver NAME: solve the game by this algorithm: zielonka (if not given) or lift\n\
--reached: count only the instances that are reached, as memory holds them: up\n  \
to 2^62 may be declared over all ranges (2^22, reached or not, if not given)\n\
--progress: print lines about long work on standard error: after each 2^18\n  \
instances explored, and when building, solving and checking begin\n";

pub const SOLUTION_USAGE: &str = "pbsolve solution [--workers N] [--solver NAME] [--reached] \
[--progress] < INPUT\n\
Input: a text\n\
Output: whether each reached instance is true\n\
--workers N: explore by at most N threads, 1 to 16 (1 if not given); the output\n  \
is the same\n\
--solver NAME: solve the game by this algorithm: zielonka (if not given) or lift\n\
--reached: count only the instances that are reached, as memory holds them: up\n  \
to 2^62 may be declared over all ranges (2^22, reached or not, if not given)\n\
--progress: print lines about long work on standard error: after each 2^18\n  \
instances explored, and when building, solving and checking begin\n";

pub const EXPLAIN_USAGE: &str = "pbsolve explain [--workers N] [--places] [--reached] \
[--progress] < INPUT\n\
Input: a text\n\
Output: evidence for the answer, from part of the instances where that is enough\n\
--workers N: explore by at most N threads, 1 to 16 (1 if not given); the output\n  \
is the same\n\
--places: after each instance that a line names print @ and the position of its\n  \
call in the text\n\
--reached: count only the instances that are reached, as memory holds them: up\n  \
to 2^62 may be declared over all ranges (2^22, reached or not, if not given)\n\
--progress: print lines about long work on standard error: after each 2^18\n  \
instances explored, and when building, solving and checking begin\n";

pub const COMPILE_USAGE: &str = "pbsolve compile [--reached] < INPUT\n\
Input: a text\n\
Output: its compiled module, in bytes\n\
--reached: count only the instances that are reached, as memory holds them: up\n  \
to 2^62 may be declared over all ranges (2^22, reached or not, if not given)\n";

pub const VERIFY_USAGE: &str = "pbsolve verify [--reached] < INPUT\n\
Input: a module\n\
Output: accepted\n\
--reached: count only the instances that are reached, as memory holds them: up\n  \
to 2^62 may be declared over all ranges (2^22, reached or not, if not given)\n";

pub const LIST_USAGE: &str = "pbsolve list [--reached] < INPUT\n\
Input: a module, accepted or not\n\
Output: its listing\n\
--reached: count only the instances that are reached, as memory holds them: up\n  \
to 2^62 may be declared over all ranges (2^22, reached or not, if not given)\n";

pub const SOLVE_CODE_USAGE: &str = "pbsolve solve-code [--workers N] [--solver NAME] \
[--reached] [--progress]\n  \
< INPUT\n\
Input: a module\n\
Output: the report\n\
--workers N: explore by at most N threads, 1 to 16 (1 if not given); the output\n  \
is the same\n\
--solver NAME: solve the game by this algorithm: zielonka (if not given) or lift\n\
--reached: count only the instances that are reached, as memory holds them: up\n  \
to 2^62 may be declared over all ranges (2^22, reached or not, if not given)\n\
--progress: print lines about long work on standard error: after each 2^18\n  \
instances explored, and when building, solving and checking begin\n";

pub const RULE_USAGE: &str = "pbsolve rule NUMBER\n\
Input: none\n\
Output: what the number of a refusal means, what to do, an example, and common\n  \
mistakes with what to write instead\n";

pub const USAGE_USAGE: &str = "pbsolve usage [COMMAND]\n\
Input: none\n\
Output: the commands; or what one of them reads and writes, and its options\n";

pub const VERSION_USAGE: &str = "pbsolve version\n\
Input: none\n\
Output: the version of the program\n";

impl Command {
    ghost use Rattle.pb_command_line.specs.Commands.{IsAbout};
    ghost use Rattle.pb_command_line.specs.Usages.{command_usage};

    /// What it reads and writes, and its options: lines of at most 80 columns.
    pub fn usage(self) -> &'static str
        ensures words { result.now ≡ command_usage self }
        ensures own { IsAbout self result.now }
    {
        match self {
            Command::Check => CHECK_USAGE,
            Command::Why => WHY_USAGE,
            Command::Translate => TRANSLATE_USAGE,
            Command::Size => SIZE_USAGE,
            Command::Solve => SOLVE_USAGE,
            Command::Game => GAME_USAGE,
            Command::Certificate => CERTIFICATE_USAGE,
            Command::Solution => SOLUTION_USAGE,
            Command::Explain => EXPLAIN_USAGE,
            Command::Compile => COMPILE_USAGE,
            Command::Verify => VERIFY_USAGE,
            Command::List => LIST_USAGE,
            Command::SolveCode => SOLVE_CODE_USAGE,
            Command::Rule => RULE_USAGE,
            Command::Usage => USAGE_USAGE,
            Command::Version => VERSION_USAGE,
        }
    }
}
