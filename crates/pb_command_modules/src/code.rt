//! Modules that bytes spell: whether they are accepted, what they say, and their answers.
ghost use Rattle.std.specs.Prelude.{IfOk};
ghost use Rattle.pb_base.specs.OrMemory.{IfRefused};
ghost use Rattle.pb_bytecode.specs.Decoded.{module_contents};
ghost use Rattle.pb_command_modules.specs.Answers.{IsAnswerOfCode, IsModuleOfCode, Spell};
ghost use Rattle.pb_command_modules.specs.Delivery.{DeliversOrRefuses, ReportsOrRefuses};
ghost use Rattle.pb_command_modules.specs.Refusals.{IsRefusedBytes, IsUnlisted, IsUnverified};
ghost use Rattle.pb_command_modules.specs.Writes.{WritesAcceptance, WritesListing};

use crate::delivery::deliver;
use crate::module::write_report;
use pb_base::OrMemory;
use pb_bytecode::Module;
use pb_bytecode::decode::decode_counting;
use pb_bytecode::list::list;
use pb_command_faults::{SolveError, SolveFault};
use pb_command_solver::{Context, Progress, SolveOptions};
use pb_report::Answer;
use pb_sorts::{Counting, Sink};
use pb_verifier::{Verified, verify};
use std::alloc::Global;
use std::thread::Threads;

// The module that bytes spell, by which instances count.
fn decoded(alloc: Global, bytes: &[u8], counting: Counting) -> Result<Module, OrMemory<SolveFault>>
    ensures module { IfOk result (λ m. Spell counting bytes.now (module_contents m)) }
    ensures refused { IfRefused result (IsUnlisted counting bytes.now) }
{
    match decode_counting(alloc, bytes, counting) {
        Ok(module) => Ok(module),
        Err(error) => Err(error.raise()),
    }
}

// The module that bytes spell, verified.
fn verified_code(
    alloc: Global,
    bytes: &[u8],
    counting: Counting,
) -> Result<Verified, OrMemory<SolveFault>>
    ensures module { IfOk result (IsModuleOfCode counting bytes.now) }
    ensures refused { IfRefused result (IsUnverified counting bytes.now) }
{
    let module = decoded(alloc, bytes, counting)?;
    match verify(alloc, module) {
        Ok(verified) => Ok(verified),
        Err((_module, error)) => Err(error.raise()),
    }
}

/// Answers a module, given by its bytes, and writes the report: the truth of its initial instance
/// in the nested fixpoint solution of its equations, whose right sides are the trees with which the
/// runs of its code end. Which instances count, `counting` says.
///
/// # Errors
/// `Module` says what is wrong with the bytes and where, `Acceptance` which rule the code breaks
/// and where. Others are as with `write_report`.
pub fn solve_code<R: Threads + Sync, G: Progress + Sync, S: Sink>(
    context: &Context<'_, R, G>,
    bytes: &[u8],
    counting: Counting,
    options: SolveOptions,
    writer: &mut S,
) -> Result<Answer, SolveError>
    ensures { ReportsOrRefuses (IsAnswerOfCode counting bytes.now)
        (IsRefusedBytes counting bytes.now) result S.Sink writer.old writer.new }
{
    let verified = verified_code(context.alloc, bytes, counting)?;
    write_report(context, &verified, counting, options, writer)
}

/// Verifies a module, given by its bytes, by which instances count, and writes `accepted` and a
/// line feed.
///
/// # Errors
/// `Module` says what is wrong with the bytes and where, `Acceptance` which rule the code breaks
/// and where; `Memory` comes where a request for memory was refused, and `Write` where the text
/// could not be written whole.
pub fn verify_code<S: Sink>(
    alloc: Global,
    bytes: &[u8],
    counting: Counting,
    writer: &mut S,
) -> Result<(), SolveError>
    ensures { DeliversOrRefuses (WritesAcceptance counting bytes.now)
        (IsUnverified counting bytes.now) result S.Sink writer.old writer.new }
{
    let _verified = verified_code(alloc, bytes, counting)?;
    deliver(b"accepted\n", writer)
}

/// Lists a module, given by its bytes, by which instances count; its code need not be accepted.
///
/// # Errors
/// `Module` says what is wrong with the bytes and where; `Memory` comes where a request for memory
/// was refused, and `Write` where the listing could not be written whole.
pub fn list_code<S: Sink>(
    alloc: Global,
    bytes: &[u8],
    counting: Counting,
    writer: &mut S,
) -> Result<(), SolveError>
    ensures { DeliversOrRefuses (WritesListing counting bytes.now) (IsUnlisted counting bytes.now)
        result S.Sink writer.old writer.new }
{
    let module = decoded(alloc, bytes, counting)?;
    let listing = list(alloc, &module)?;
    deliver(listing.as_slice(), writer)
}
