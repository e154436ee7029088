//! What the code of all equations of a module stands in: how many enumerators each sort has, which
//! carriers the parameters of each equation have, and the layout of the instances.

ghost use Rattle.std.specs.Prelude.{◌≡◌, ◌≤◌, All, IfOk, map, length, vec_items, vec_len};
ghost use Rattle.pb_bytecode.specs.Contents.{counts};
ghost use Rattle.pb_bytecode.specs.Views.{sort_contents};
ghost use Rattle.pb_bytecode.specs.Decoded.{module_contents};
ghost use Rattle.pb_bytecode.specs.Meaning.{parameters};
ghost use Rattle.pb_sorts.specs.Layout.{count_of, lists_of};
ghost use Rattle.pb_sorts.specs.declared.counting.TheConstants.{MAX_NUMBERS};
ghost use Rattle.pb_verifier.specs.Programs.{parameters_of};
ghost use Rattle.pb_base.specs.declared.limits.TheConstants.{MAX_EQUATIONS, MAX_PARAMETERS};

use pb_base::OrMemory;
use pb_bytecode::{Equation, Module, Sort};
use pb_sorts::{Carrier, Counting, Layout};
use std::alloc::{AllocError, Global};

/// How many enumerators each sort has.
pub(crate) fn enumerator_counts(alloc: Global, sorts: &[Sort]) -> Result<Vec<u8>, AllocError>
    ensures { IfOk result (λ sizes. sizes.items ≡ counts (map sort_contents sorts.now)) }
{
    let mut sizes = Vec::with_capacity(alloc, sorts.len())?;
    for sort in sorts {
        sizes.push(sort.enumerators.len() as u8)?;
    }
    Ok(sizes)
}

fn parameter_carriers(
    alloc: Global,
    equations: &[Equation],
) -> Result<Vec<Vec<Carrier>>, AllocError>
    ensures { IfOk result (λ carriers. map vec_items carriers.items
        ≡ map parameters_of equations.now) }
{
    let mut carriers = Vec::with_capacity(alloc, equations.len())?;
    for equation in equations {
        carriers.push(Vec::from_slice(alloc, &equation.parameters)?)?;
    }
    Ok(carriers)
}

/// The layout of equations with these parameters, of which there are no more than a layout may
/// have: how many instances may be declared was seen to when the module was made.
fn layout_with(alloc: Global, carriers: &[Vec<Carrier>]) -> Result<Layout, AllocError>
    requires equations { length carriers.now ≤ MAX_EQUATIONS }
    requires parameters { All (λ parameters. vec_len parameters ≤ MAX_PARAMETERS) carriers.now }
    requires instances { count_of (lists_of carriers.now) ≤ MAX_NUMBERS }
    ensures { IfOk result (λ layout. layout ≡ lists_of carriers.now) }
{
    Layout::counting(alloc, carriers, Counting::Reached).map_err(OrMemory::only_memory)
}

/// The layout of a module's instances, which has no more than a layout may have.
pub(crate) fn layout_of(alloc: Global, module: &Module) -> Result<Layout, AllocError>
    ensures { IfOk result (λ layout. layout ≡ parameters (module_contents «module».now)) }
{
    let carriers = parameter_carriers(alloc, &module.equations)?;
    layout_with(alloc, &carriers)
}
