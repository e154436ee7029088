//! The properties that are asked for, and how many equations each has.

ghost use Rattle.std.specs.Prelude.{◌≡◌, ◌++◌, OnOk, Some, flat_map, map, option_copied};
ghost use Rattle.std.specs.Prelude.{string_bytes};
ghost use Rattle.std.specs.List.{list_any};
ghost use Rattle.pb_typing_declarations.specs.View.{spec_of};
ghost use Rattle.pb_protocol_tree.specs.Form.{property_form};
ghost use Rattle.pb_model_sizes.specs.Sizes.{asked_line, is_asked, is_known, property_line};

use crate::count::push_count;
use crate::formula::total_equations;
use pb_protocol_tree::Property;
use pb_typing_declarations::Declarations;
use std::alloc::AllocError;

/// Whether a property has the name, or none is named.
fn is_asked(name: Option<&str>, property: &Property) -> bool
    ensures { result ≡ is_asked (option_copied name.entry) (property_form property.now) }
{
    match name {
        None => true,
        Some(name) => property.name.text.as_str() == name,
    }
}

/// Whether some property has the name.
fn has_property(name: &str, properties: &[Property]) -> bool
    ensures { result ≡ list_any (is_asked (Some name.now)) (map property_form properties.now) }
{
    for property in properties {
        if property.name.text.as_str() == name {
            return true;
        }
    }
    false
}

/// Whether some property has the name, or none is named.
pub(crate) fn is_known(name: Option<&str>, properties: &[Property]) -> bool
    ensures { result ≡ is_known (option_copied name.entry) (map property_form properties.now) }
{
    match name {
        None => true,
        Some(name) => has_property(name, properties),
    }
}

fn push_property(
    lines: &mut String,
    declarations: &Declarations<'_>,
    property: &Property,
) -> Result<(), AllocError>
    ensures { OnOk result (string_bytes lines.new ≡ string_bytes lines.old
        ++ property_line (spec_of declarations.now) (property_form property.now)) }
{
    let name = property.name.text.as_str();
    write!(lines, "property {name} ")?;
    push_count(lines, total_equations(declarations, &property.formula))?;
    lines.push_str("\n")
}

/// Writes the line of a property, where it is asked for.
fn push_asked(
    lines: &mut String,
    declarations: &Declarations<'_>,
    property: &Property,
    name: Option<&str>,
) -> Result<(), AllocError>
    ensures { OnOk result (string_bytes lines.new ≡ string_bytes lines.old
        ++ asked_line (spec_of declarations.now) (option_copied name.entry)
        (property_form property.now)) }
{
    if !is_asked(name, property) {
        return Ok(());
    }
    push_property(lines, declarations, property)
}

/// Writes the lines of the properties that are asked for.
pub(crate) fn push_properties(
    lines: &mut String,
    declarations: &Declarations<'_>,
    properties: &[Property],
    name: Option<&str>,
) -> Result<(), AllocError>
    ensures { OnOk result (string_bytes lines.new ≡ string_bytes lines.old
        ++ flat_map (asked_line (spec_of declarations.now) (option_copied name.entry))
        (map property_form properties.now)) }
{
    for property in properties {
        push_asked(lines, declarations, property, name)?;
    }
    Ok(())
}
