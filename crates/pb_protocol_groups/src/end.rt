//! What stands at the end of a sort's chain of aliases.

ghost use Rattle.std.specs.Prelude.{◌≡◌, codes, length, pos, suc, Bool, IfOk};
ghost use Rattle.std.specs.Option.{option_map};
ghost use Rattle.pb_base_values.specs.Carrier as carriers;
ghost use Rattle.pb_base_values.specs.Carrier.{interval, numbers_from};
ghost use Rattle.pb_text_meaning.specs.Syntax as syntax;
ghost use Rattle.pb_text_meaning.specs.Syntax.{same_name};
ghost use Rattle.pb_text_meaning.specs.Sorts.{carrier_by, carrier_of};
ghost use Rattle.pb_text_meaning.specs.Sorts as sorts;
ghost use Rattle.pb_model_meaning.specs.Erase.{model_of};
ghost use Rattle.pb_model_meaning.specs.Steps.{data_of};
ghost use Rattle.pb_protocol_packing.specs.Groups as packing;
ghost use Rattle.pb_protocol_packing.specs.Numbers as numbers;
ghost use Rattle.pb_protocol_packer.specs.Declarations.{declarations_in, ranges_in};
ghost use Rattle.pb_protocol_packer.specs.View.{name_bytes, texts_of};
ghost use Rattle.pb_protocol_packer.specs.Members as members;
ghost use Rattle.pb_protocol_groups.specs.Ends.{carrier_at, carrier_behind, kind_at, kind_behind};
ghost use Rattle.pb_protocol_groups.specs.Ends.{ends_behind, range_by, sort_by};
ghost use Rattle.pb_protocol_packing.specs.Apart.{ends_by, ends_within};
ghost use Rattle.pb_protocol_groups.specs.Names.{names_of_enumerators, enumerators_said};

use pb_model_tree::Model;
use pb_protocol_packer::Kind;
use pb_text_tree::{Enumerator, Name, Range, Sort, SortDeclaration, copy_name};
use std::alloc::{AllocError, Global};

/// What stands at the end of a sort's chain of aliases.
#[derive(Clone, Copy)]
pub(crate) enum End<'a> {
    /// An integer sort with a range.
    Range(&'a Range),
    Bool,
    Struct(&'a [Enumerator]),
    /// No sort that has values, or no end.
    Nothing,
}

/// One sort of a chain: its end, or the target of an alias.
#[derive(Clone, Copy)]
pub(crate) enum Link<'a> {
    Ends(End<'a>),
    GoesOn(&'a Name),
}

/// The lowest number of a range, and 0 where there is none.
fn lowest(range: &Range) -> i32
    ensures { result ≡ packing.lowest (interval range.now.low range.now.high) }
{
    let low = range.low;
    if low <= range.high {
        return low;
    }
    0
}

/// How many numbers a range has.
fn count(range: &Range) -> u64
    ensures { result ≡ length (interval range.now.low range.now.high) }
{
    if range.low <= range.high {
        (i64::from(range.high) - i64::from(range.low) + 1) as u64
    } else {
        0
    }
}

/// How many enumerators a struct has.
fn struct_size(enumerators: &[Enumerator]) -> u64
    ensures { result
        ≡ length (numbers_from (pos 0) (length (enumerators_said enumerators.now))) }
{
    enumerators.len() as u64
}

impl End<'_> {
    /// The lowest value, and 0 where there is none.
    pub fn low(&self) -> i32
        ensures { result ≡ packing.lowest (carrier_at self.now) }
    {
        match self {
            End::Range(range) => lowest(range),
            End::Struct(_) => 0,
            End::Bool | End::Nothing => 0,
        }
    }

    /// How many values there are.
    pub fn size(&self) -> u64
        ensures { result ≡ length (carrier_at self.now) }
    {
        match self {
            End::Range(range) => count(range),
            End::Struct(enumerators) => struct_size(enumerators),
            End::Bool => 2,
            End::Nothing => 0,
        }
    }

    /// How the values are written.
    pub fn kind(&self, alloc: Global) -> Result<Kind, AllocError>
        ensures { IfOk result (λ k. members.kind_said k ≡ kind_at self.now) }
    {
        match self {
            End::Range(_) | End::Nothing => Ok(Kind::Whole),
            End::Bool => Ok(Kind::Boolean),
            End::Struct(enumerators) => {
                Ok(Kind::Enumeration(copy_enumerators(alloc, enumerators)?))
            }
        }
    }
}

fn copy_enumerators(alloc: Global, enumerators: &[Enumerator]) -> Result<Vec<Name>, AllocError>
    ensures { IfOk result (λ v. texts_of v.items ≡ names_of_enumerators enumerators.now) }
{
    let mut names = Vec::new(alloc);
    for enumerator in enumerators {
        names.push(copy_name(alloc, &enumerator.name)?)?;
    }
    Ok(names)
}

/// The range of a sort.
fn range_of<'a>(ranges: &'a [Range], sort: &str) -> Option<&'a Range>
    ensures { option_map range_by result ≡ sorts.range_of (ranges_in ranges.now) sort.now }
{
    for range in ranges {
        if range.name.as_str() == sort {
            return Some(range);
        }
    }
    None
}

/// What a sort is declared to be.
fn declared<'a>(declarations: &'a [SortDeclaration], sort: &str) -> Option<&'a Sort>
    ensures { option_map sort_by result
        ≡ sorts.declared (declarations_in declarations.now) sort.now }
{
    for declaration in declarations {
        if declaration.name.text.as_str() == sort {
            return Some(&declaration.sort);
        }
    }
    None
}

/// Looks at one sort of a chain.
fn chain_link<'a>(model: &'a Model, sort: &str) -> Link<'a>
    ensures kind { (target : syntax.Name → numbers.Kind) → kind_behind result target
        ≡ packing.kind_by (sorts.range_of (ranges_in model.now.ranges.items) sort.now)
        (same_name sort.now (codes "Bool"))
        (sorts.declared (declarations_in model.now.sorts.items) sort.now) target }
    ensures end { (target : syntax.Name → Bool) → ends_behind result target
        ≡ ends_by (sorts.range_of (ranges_in model.now.ranges.items) sort.now)
        (same_name sort.now (codes "Bool"))
        (sorts.declared (declarations_in model.now.sorts.items) sort.now) target }
    ensures carrier { (target : syntax.Name → carriers.Carrier) → carrier_behind result target
        ≡ carrier_by (sorts.range_of (ranges_in model.now.ranges.items) sort.now)
        (same_name sort.now (codes "Bool"))
        (sorts.declared (declarations_in model.now.sorts.items) sort.now) target }
{
    if let Some(range) = range_of(&model.ranges, sort) {
        return Link::Ends(End::Range(range));
    }
    if sort == "Bool" {
        return Link::Ends(End::Bool);
    }
    match declared(&model.sorts, sort) {
        None => Link::Ends(End::Nothing),
        Some(Sort::Struct(enumerators)) => Link::Ends(End::Struct(enumerators)),
        Some(Sort::Alias(target)) => Link::GoesOn(target),
    }
}

/// What stands at the end of a sort's chain of aliases. No chain is longer than the list of sorts.
pub(crate) fn end_of<'a>(model: &'a Model, sort: &'a Name) -> End<'a>
    ensures kind { kind_at result ≡ packing.kind_of (model_of model.now) (name_bytes sort.now) }
    ensures carrier { carrier_at result
        ≡ carrier_of (data_of (model_of model.now)) (name_bytes sort.now) }
{
    let mut sort = sort;
    for _ in 0..model.sorts.len() + 1 {
        match chain_link(model, &sort.text) {
            Link::Ends(end) => return end,
            Link::GoesOn(target) => sort = target,
        }
    }
    End::Nothing
}

/// Whether a sort's chain of aliases has an end.
pub(crate) fn has_end<'a>(model: &'a Model, sort: &'a Name) -> bool
    ensures { result ≡ ends_within (suc (length (model_of model.now).sorts)) (model_of model.now)
        (name_bytes sort.now) }
{
    let mut sort = sort;
    for _ in 0..model.sorts.len() + 1 {
        match chain_link(model, &sort.text) {
            Link::Ends(_) => return true,
            Link::GoesOn(target) => sort = target,
        }
    }
    false
}
