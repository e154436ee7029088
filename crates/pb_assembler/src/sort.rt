//! The sorts of a module.

ghost use Rattle.std.specs.Prelude.{◌≡◌, ◌<◌, true, length, map, string_bytes, IfOk};
ghost use Rattle.std.specs.List.{list_all};
ghost use Rattle.pb_text_tree.specs.Form.{enumerator_form, sort_declaration_form};
ghost use Rattle.pb_text_meaning.specs.Erase.{erased_declaration, erased_enumerator};
ghost use Rattle.pb_text_meaning.specs.Syntax as syntax;
ghost use Rattle.pb_bytecode.specs.Names.{is_module_name};
ghost use Rattle.pb_bytecode.specs.Views.{sort_contents, text_of};
ghost use Rattle.pb_assembler_modules.specs.Module.{struct_names};
ghost use Rattle.pb_assembler.specs.Compiled.{AreSorts};

use crate::name::copy_name;
use pb_bytecode::{Name, Sort};
use pb_text_tree::{Enumerator, SortDeclaration};
use std::alloc::{AllocError, Global};

/// The names of enumerators, in order.
fn enumerator_names(alloc: Global, enumerators: &[Enumerator]) -> Result<Vec<Name>, AllocError>
    requires { list_all (λ e. is_module_name (string_bytes e.name.text)) enumerators.now ≡ true }
    ensures { IfOk result (λ names. map text_of names.items
        ≡ map (λ e. string_bytes e.name.text) enumerators.now) }
{
    let mut names = Vec::with_capacity(alloc, enumerators.len())?;
    for enumerator in enumerators {
        let name = copy_name(alloc, &enumerator.name.text)?;
        names.push(name)?;
    }
    Ok(names)
}

/// The structs of a text, in declared order.
///
/// # Errors
/// Memory was refused.
pub(crate) fn sorts(
    alloc: Global,
    declarations: &[SortDeclaration],
) -> Result<Vec<Sort>, AllocError>
    requires { AreSorts (map erased_declaration (map sort_declaration_form declarations.now)) }
    ensures { IfOk result (λ sorts. map sort_contents sorts.items
        ≡ struct_names (map erased_declaration (map sort_declaration_form declarations.now))) }
{
    let mut sorts = Vec::new(alloc);
    for declaration in declarations {
        match &declaration.sort {
            pb_text_tree::Sort::Struct(enumerators) => {
                let enumerators = enumerator_names(alloc, enumerators)?;
                sorts.push(Sort { enumerators })?;
            }
            pb_text_tree::Sort::Alias(_) => {}
        }
    }
    Ok(sorts)
}
