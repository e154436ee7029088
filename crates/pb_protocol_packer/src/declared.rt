//! What a packed model declares: its variables, and a sort with a range for each group of several.

ghost use Rattle.std.specs.Prelude.{◌≡◌, map, pos, ◌-ℤ◌, codes, IfOk};
ghost use Rattle.pb_text_meaning.specs.Syntax as syntax;
ghost use Rattle.pb_protocol_packing.specs.Packing as packing;
ghost use Rattle.pb_protocol_packer.specs.Declarations.{declaration_of, declarations_in, syntax_range};
ghost use Rattle.pb_protocol_packer.specs.Declarations.{ranges_in};
ghost use Rattle.pb_protocol_packer.specs.View.{name_bytes, variables_in};
ghost use Rattle.pb_protocol_packer.specs.Members.{members_said};
ghost use Rattle.pb_protocol_packer.specs.Members as members;
ghost use Rattle.pb_protocol_packer.specs.Groups.{group_of, groups_in};

use crate::group::{Group, Joined};
use crate::member::Variable;
use pb_text_tree::{
    Name, Range, Sort, SortDeclaration, Variables, copy_declarations, copy_name, copy_ranges,
};
use std::alloc::{AllocError, Global};

/// The variable of a group.
fn variable_of(group: &Group) -> &Variable
    ensures { members.syntax_variable result.now ≡ packing.variable_of (group_of group.now) }
{
    match group {
        Group::Alone(variable) => variable,
        Group::Joined(joined) => &joined.variable,
    }
}

/// The variables of the packed model, one for each group.
pub(crate) fn variables(alloc: Global, groups: &[Group]) -> Result<Vec<Variables>, AllocError>
    ensures { IfOk result
        (λ v. variables_in v.items ≡ map packing.variable_of (groups_in groups.now)) }
{
    let mut variables = Vec::with_capacity(alloc, groups.len())?;
    for group in groups {
        let variable = variable_of(group);
        let mut names = Vec::new(alloc);
        names.push(copy_name(alloc, &variable.name)?)?;
        let sort = copy_name(alloc, &variable.sort)?;
        variables.push(Variables { names, sort })?;
    }
    Ok(variables)
}

/// The sort of a group of several: whole numbers.
fn declaration(alloc: Global, joined: &Joined) -> Result<SortDeclaration, AllocError>
    ensures { IfOk result (λ d. declaration_of d ≡ record {
      name = name_bytes joined.now.variable.sort;
      sort = syntax.Sort.Alias (codes "Nat");
    }) }
{
    let name = copy_name(alloc, &joined.variable.sort)?;
    let text = "Nat".to_owned(alloc)?;
    let place = name.place;
    Ok(SortDeclaration {
        name,
        sort: Sort::Alias(Name { place, text }),
    })
}

/// The range of a group of several.
fn range(alloc: Global, joined: &Joined) -> Result<Range, AllocError>
    ensures { IfOk result (λ r. syntax_range r ≡ record {
      name = name_bytes joined.now.variable.sort;
      low = pos 0;
      high = pos (packing.capacity (members_said joined.now.members.items)) -ℤ pos 1;
    }) }
{
    let name = joined.variable.sort.text.as_str().to_owned(alloc)?;
    Ok(Range {
        place: joined.variable.sort.place,
        name,
        low: 0,
        high: joined.capacity as i32 - 1,
    })
}

/// The sorts of the packed model: those of groups, then the model's.
pub(crate) fn sorts(
    alloc: Global,
    groups: &[Group],
    declared: &[SortDeclaration],
) -> Result<Vec<SortDeclaration>, AllocError>
    ensures { IfOk result (λ v. declarations_in v.items
        ≡ packing.with_sorts (groups_in groups.now) (declarations_in declared.now)) }
{
    let mut sorts = copy_declarations(alloc, declared)?;
    for index in (0..groups.len()).rev() {
        if let Group::Joined(joined) = &groups[index] {
            sorts.insert(0, declaration(alloc, joined)?)?;
        }
    }
    Ok(sorts)
}

/// The ranges of the packed model: those of groups, then the model's.
pub(crate) fn ranges(
    alloc: Global,
    groups: &[Group],
    declared: &[Range],
) -> Result<Vec<Range>, AllocError>
    ensures { IfOk result (λ v. ranges_in v.items
        ≡ packing.with_ranges (groups_in groups.now) (ranges_in declared.now)) }
{
    let mut ranges = copy_ranges(alloc, declared)?;
    for index in (0..groups.len()).rev() {
        if let Group::Joined(joined) = &groups[index] {
            ranges.insert(0, range(alloc, joined)?)?;
        }
    }
    Ok(ranges)
}
