//! The values of the sorts of a protocol.

ghost use Rattle.std.specs.Prelude.{◌≡◌, true, codes, IfSome, Some};
ghost use Rattle.std.specs.List.{slice_get};
ghost use Rattle.std.specs.Option.{option_map};
ghost use Rattle.pb_base_values.specs.Carrier as carriers;
ghost use Rattle.pb_base_values.specs.Carrier.{contains, interval};
ghost use Rattle.pb_text_meaning.specs.Syntax as syntax;
ghost use Rattle.pb_text_meaning.specs.Syntax.{same_name};
ghost use Rattle.pb_text_meaning.specs.Sorts as sorts;
ghost use Rattle.pb_protocol_symmetry.specs.ProtocolTest.{has_value};
ghost use Rattle.pb_protocol_scalar_sets.specs.Sorts.{carrier_behind, carrier_said, spec_of};
ghost use Rattle.pb_protocol_scalar_sets.specs.Sorts.{declarations_in, range_by, ranges_in, sort_by};

use pb_protocol_tree::Protocol;
use pb_text_tree::{Name, Range, Sort, SortDeclaration};

/// So many whole numbers from one on: the values of any sort are such.
#[derive(Clone, Copy)]
pub struct Carrier {
    low: i32,
    count: u64,
}

impl Carrier {
    pub fn contains(&self, value: i128) -> bool
        ensures { result ≡ contains (carrier_said self.now) value }
    {
        let low = i128::from(self.low);
        low <= value && value < low + i128::from(self.count)
    }

    /// How many there are.
    pub fn count(&self) -> u64
        ensures { result ≡ self.now.count }
    {
        self.count
    }

    /// The place of a value among them, if it is one.
    pub fn place(&self, value: i32) -> Option<u64>
        ensures { IfSome result
            (λ place. slice_get (carrier_said self.now) place ≡ Some value) }
    {
        match u64::try_from(i64::from(value) - i64::from(self.low)) {
            Ok(place) if place < self.count => Some(place),
            _ => None,
        }
    }

    /// The value at a place, if there is one that fits.
    pub fn value(&self, place: u64) -> Option<i32>
        ensures { IfSome result (λ v. contains (carrier_said self.now) v ≡ true) }
    {
        let value = i128::from(self.low) + i128::from(place);
        match i32::try_from(value) {
            Ok(element) if self.contains(i128::from(element)) => Some(element),
            _ => None,
        }
    }

    pub fn has_value(&self) -> bool
        ensures { result ≡ has_value (carrier_said self.now) }
    {
        self.count != 0
    }
}

/// One sort of a chain of aliases: the values at its end, or the target of an alias.
#[derive(Clone, Copy)]
enum Link<'a> {
    Ends(Carrier),
    GoesOn(&'a Name),
}

fn range_carrier(range: &Range) -> Carrier
    ensures { carrier_said result ≡ interval range.now.low range.now.high }
{
    let low = range.low;
    let count = if low <= range.high {
        (i64::from(range.high) - i64::from(low) + 1) as u64
    } else {
        0
    };
    Carrier { low, count }
}

/// The range of a sort.
fn range_of<'a>(ranges: &'a [Range], sort: &str) -> Option<&'a Range>
    ensures { option_map range_by result ≡ sorts.range_of (ranges_in ranges.now) sort.now }
{
    for range in ranges {
        if range.name.as_str() == sort {
            return Some(range);
        }
    }
    None
}

/// What a sort is declared to be.
pub(crate) fn declared<'a>(declarations: &'a [SortDeclaration], sort: &str) -> Option<&'a Sort>
    ensures { option_map sort_by result
        ≡ sorts.declared (declarations_in declarations.now) sort.now }
{
    for declaration in declarations {
        if declaration.name.text.as_str() == sort {
            return Some(&declaration.sort);
        }
    }
    None
}

/// Looks at one sort of a chain.
fn chain_link<'a>(protocol: &'a Protocol, sort: &str) -> Link<'a>
    ensures { (target : syntax.Name → carriers.Carrier) → carrier_behind result target
        ≡ sorts.carrier_by (sorts.range_of (spec_of protocol.now).ranges sort.now)
        (same_name sort.now (codes "Bool"))
        (sorts.declared (spec_of protocol.now).sorts sort.now) target }
{
    if let Some(range) = range_of(&protocol.ranges, sort) {
        return Link::Ends(range_carrier(range));
    }
    if sort == "Bool" {
        return Link::Ends(Carrier { low: 0, count: 2 });
    }
    match declared(&protocol.sorts, sort) {
        None => Link::Ends(Carrier { low: 0, count: 0 }),
        Some(Sort::Struct(enumerators)) => {
            let count = enumerators.len() as u64;
            Link::Ends(Carrier { low: 0, count })
        }
        Some(Sort::Alias(target)) => Link::GoesOn(target),
    }
}

/// The values of a sort. No chain of aliases is longer than the list of sorts.
pub fn carrier_of<'a>(protocol: &'a Protocol, sort: &'a str) -> Carrier
    ensures { carrier_said result ≡ sorts.carrier_of (spec_of protocol.now) sort.now }
{
    let mut sort = sort;
    for _ in 0..protocol.sorts.len() + 1 {
        match chain_link(protocol, sort) {
            Link::Ends(carrier) => return carrier,
            Link::GoesOn(target) => sort = target.text.as_str(),
        }
    }
    Carrier { low: 0, count: 0 }
}
