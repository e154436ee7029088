//! From bytes to the lines that tell how large the model is that they say.

ghost use Rattle.pb_base.specs.declared.limits.TheConstants.{MAX_INPUT_BYTES};
ghost use Rattle.pb_base.specs.declared.or_memory.OrMemory.TheVariants.{Refused};
ghost use Rattle.std.specs.Prelude.{◌≡◌, ◌≤◌, [], Err, IfOk, IsSome, length, option_copied};
ghost use Rattle.std.specs.Prelude.{string_bytes};
ghost use Rattle.pb_base.specs.OrMemory.{IfRefused};
ghost use Rattle.pb_text_tree.specs.Form.{spec_form};
ghost use Rattle.pb_typing_declarations.specs.View.{spec_of};
ghost use Rattle.pb_protocol_tree.specs.Form.{protocol_form};
ghost use Rattle.pb_protocol_typing.specs.Faults.{data_form, protocol_faults};
ghost use Rattle.pb_model_faults.specs.declared.ModelFault.TheVariants.{NoProperty};
ghost use Rattle.pb_model_sizes.specs.Refusals.{AreSizesOf, IsUnsized, IsUnsizedProtocol};
ghost use Rattle.pb_model_sizes.specs.Refusals.{sizes_of};
ghost use Rattle.pb_model_sizes.specs.Sizes.{size_lines};
ghost use Rattle.pb_model_sizes.specs.Sorts.{size_faults};

use crate::property::{is_known, push_properties};
use crate::sort::check_sorts;
use crate::state::push_state;
use crate::states::push_states;
use crate::step::push_steps;
use pb_model_faults::{ModelError, ModelFault};
use pb_model_properties::parse_protocol;
use pb_protocol_tree::Protocol;
use pb_protocol_typing::check_protocol;
use pb_sorts::Counting;
use pb_text_tree::{Instance, Name, Spec, copy_declarations, copy_ranges};
use pb_typing_declarations::Declarations;
use std::alloc::{AllocError, Global};

/// The sorts and ranges of a protocol, as a text without equations.
fn data_text(alloc: Global, protocol: &Protocol) -> Result<Spec, AllocError>
    ensures { IfOk result (λ text. spec_form text ≡ data_form (protocol_form protocol.now)) }
{
    let sorts = copy_declarations(alloc, &protocol.sorts)?;
    let ranges = copy_ranges(alloc, &protocol.ranges)?;
    let text = "_".to_owned(alloc)?;
    let place = protocol.initial.place;
    let initial = Instance {
        name: Name { place, text },
        arguments: Vec::new(alloc),
    };
    Ok(Spec {
        sorts,
        ranges,
        equations: Vec::new(alloc),
        initial,
    })
}

/// The lines for a protocol, by what is declared, with the property of a name alone, where one is
/// named.
fn lines_by(
    alloc: Global,
    declarations: &Declarations<'_>,
    protocol: &Protocol,
    name: Option<&str>,
) -> Result<String, AllocError>
    ensures { IfOk result (λ lines. string_bytes lines
        ≡ size_lines (spec_of declarations.now) (option_copied name.entry)
        (protocol_form protocol.now)) }
{
    let mut lines = String::new(alloc);
    push_state(&mut lines, declarations, &protocol.state)?;
    push_states(alloc, &mut lines, declarations, &protocol.state)?;
    push_steps(&mut lines, declarations, &protocol.steps)?;
    push_properties(&mut lines, declarations, &protocol.properties, name)?;
    Ok(lines)
}

/// The lines for a protocol that keeps the rules, whose sorts and ranges are those of a text.
fn lines_over(
    alloc: Global,
    text: &Spec,
    protocol: &Protocol,
    name: Option<&str>,
) -> Result<String, ModelError>
    requires data { spec_form text.now ≡ data_form (protocol_form protocol.now) }
    requires kept { protocol_faults (protocol_form protocol.now) ≡ [] }
    ensures faultless { IfOk result (λ lines. size_faults (protocol_form protocol.now) ≡ []) }
    ensures lines { IfOk result (λ lines. string_bytes lines
        ≡ sizes_of (option_copied name.entry) (protocol_form protocol.now)) }
    ensures refused { IfRefused result
        (IsUnsizedProtocol (option_copied name.entry) (protocol_form protocol.now)) }
{
    let declarations = match Declarations::read(alloc, text, Counting::Reached) {
        Ok(declarations) => declarations,
        Err(error) => return Err(error.raise()),
    };
    match check_sorts(alloc, &declarations, &protocol.state) {
        Ok(()) => (),
        Err(error) => return Err(error.raise()),
    }
    if !is_known(name, &protocol.properties) {
        return Err(ModelFault::NoProperty.into());
    }
    Ok(lines_by(alloc, &declarations, protocol, name)?)
}

/// The lines for a protocol.
fn lines_for(alloc: Global, protocol: &Protocol, name: Option<&str>) -> Result<String, ModelError>
    ensures faultless { IfOk result (λ lines. size_faults (protocol_form protocol.now) ≡ []) }
    ensures lines { IfOk result (λ lines. string_bytes lines
        ≡ sizes_of (option_copied name.entry) (protocol_form protocol.now)) }
    ensures refused { IfRefused result
        (IsUnsizedProtocol (option_copied name.entry) (protocol_form protocol.now)) }
{
    match check_protocol(alloc, protocol) {
        Ok(()) => (),
        Err(error) => return Err(error.raise()),
    }
    let text = data_text(alloc, protocol)?;
    lines_over(alloc, &text, protocol, name)
}

/// Reads the text of a model, of at most 67,108,864 bytes, and writes how large it is: a line for
/// each state variable with the number of its values, those of all elements and states, a line for
/// each step with the number of its copies, that of all, and a line for each property, or the one
/// that is named, with the number of equations of its text.
///
/// # Errors
/// `Text` and `Typing` say which rule it breaks and where: one of the grammar, of constants or of
/// bounds, or one that the names, sorts and kinds of the model break, whatever limits it passes.
/// `NoProperty` comes exactly where it breaks none and has no property of the name, and `Memory`
/// only where memory was refused.
pub fn sizes_of(alloc: Global, bytes: &[u8], name: Option<&str>) -> Result<String, ModelError>
    requires { length bytes.now ≤ MAX_INPUT_BYTES }
    ensures lines { IfOk result
        (λ lines. AreSizesOf (option_copied name.entry) bytes.now (string_bytes lines)) }
    ensures refused { IfRefused result (IsUnsized (option_copied name.entry) bytes.now) }
    // None is missed where none is named.
    ensures named { result ≡ Err (Refused NoProperty) → IsSome name.entry }
{
    let protocol = parse_protocol(alloc, bytes)?;
    let lines = lines_for(alloc, &protocol, name);
    drop(protocol);
    lines
}
