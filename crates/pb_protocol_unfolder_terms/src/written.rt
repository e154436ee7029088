//! The values of a sort as they are written, in the order of its carrier.

ghost use Rattle.std.specs.Prelude.{◌≡◌, ◌<◌, ◌≤◌, ◌↔◌, ◌*◌, ◌^◌, suc, pos, ◌+ℤ◌, true, false};
ghost use Rattle.std.specs.Prelude.{length, map, flat_map, IsTrue};
ghost use Rattle.std.specs.Prelude.{[], ◌∷◌, ◌++◌, IfOk, OnOk, MatchResult};
ghost use Rattle.pb_base_values.specs.Carrier.{interval, numbers_from};
ghost use Rattle.pb_text_meaning.specs.Sorts as meaning;
ghost use Rattle.pb_text_meaning.specs.Syntax as syntax;
ghost use Rattle.pb_protocol_folding.specs.View.{term_of};
ghost use Rattle.pb_protocol_folding.specs.Folding.{number};
ghost use Rattle.pb_protocol_unfolding.specs.Written as spec;
ghost use Rattle.pb_protocol_unfolder_terms.specs.View.{declarations, range_said, ranges_said, sort_said};
ghost use Rattle.pb_protocol_unfolder_terms.specs.View.{spec_of, variable_of};
ghost use Rattle.pb_protocol_unfolder_terms.specs.Values.{enumerators_said, named_by, values_in, IsTooLong};
ghost use Rattle.pb_protocol_unfolder_terms.specs.Bounds.{interval_within, sort_interval};
ghost use Rattle.pb_protocol_unfolder_terms.specs.Values.{interval_of, tuple_of, with_each, written_term};

use crate::fault::{UnfoldError, UnfoldFault, UnfoldRule};
use crate::sorts::{Sorts, Variable};
use pb_base::MAX_OPERATORS;
use pb_base_values::Interval;
use pb_text_tree::{Enumerator, Name, Place, Range, Sort, SortDeclaration, Term};
use std::alloc::{AllocError, Global};

/// A value as it is written: a truth value, a number, a number behind `-`, or the name of an
/// enumerator.
#[derive(Clone, Copy)]
pub enum Written<'a> {
    Truth(bool),
    Number(u64),
    Negative(u64),
    Enumerator(&'a Name),
}

/// What the values of a sort are.
#[derive(Clone, Copy)]
enum Values<'a> {
    Numbers { low: i32, high: i32 },
    Truths,
    Enumerators(&'a [Enumerator]),
    Unknown,
}

impl Written<'_> {
    /// The value as a term, at a place.
    ///
    /// # Errors
    /// Memory was refused.
    pub fn term(self, alloc: Global, place: Place) -> Result<Term, AllocError>
        ensures { IfOk result (λ t. term_of t ≡ written_term self.entry) }
    {
        match self {
            Written::Truth(value) => Ok(Term::Constant { place, value }),
            Written::Number(value) => Ok(Term::Number { place, value }),
            Written::Negative(value) => {
                let operand = Box::new(alloc, Term::Number { place, value })?;
                Ok(Term::Negative { place, operand })
            }
            Written::Enumerator(name) => {
                let text = name.text.as_str().to_owned(alloc)?;
                Ok(Term::Name(Name { place, text }))
            }
        }
    }
}

/// The range of a sort, if one is given.
fn range_of<'a>(ranges: &'a [Range], name: &str) -> Option<&'a Range>
    ensures { range_said result ≡ meaning.range_of (ranges_said ranges.now) name.now }
{
    for range in ranges {
        if range.name.as_str() == name {
            return Some(range);
        }
    }
    None
}

/// What the sort of a name is declared to be, if it is declared.
fn declared<'a>(declared_sorts: &'a [SortDeclaration], name: &str) -> Option<&'a Sort>
    ensures { sort_said result ≡ meaning.declared (declarations declared_sorts.now) name.now }
{
    for sort in declared_sorts {
        if sort.name.text.as_str() == name {
            return Some(&sort.sort);
        }
    }
    None
}

/// What the values of a sort are, through at most this many aliases.
fn values_within<'a>(sorts: Sorts<'a>, name: &str, aliases: usize) -> Values<'a>
    ensures values { values_in result
        ≡ spec.written_within (suc aliases) (spec_of sorts.entry) name.now }
    ensures interval { interval_of result
        ≡ interval_within (suc aliases) (spec_of sorts.entry) name.now }
{
    if let Some(range) = range_of(sorts.ranges, name) {
        return Values::Numbers {
            low: range.low,
            high: range.high,
        };
    }
    if name == "Bool" {
        return Values::Truths;
    }
    match declared(sorts.declarations, name) {
        None => Values::Unknown,
        Some(Sort::Struct(enumerators)) => Values::Enumerators(enumerators),
        Some(Sort::Alias(_)) if aliases == 0 => Values::Unknown,
        Some(Sort::Alias(target)) => values_within(sorts, target.text.as_str(), aliases - 1),
    }
}

/// The whole number so far above another one, as it is written.
fn written_number<'a>(low: i32, offset: u64) -> Written<'a>
    requires { offset < 2 ^ 33 }
    ensures { written_term result ≡ number (low +ℤ pos offset) }
{
    let value = i64::from(low) + offset as i64;
    let magnitude = value.unsigned_abs();
    if value >= 0 {
        Written::Number(magnitude)
    } else {
        Written::Negative(magnitude)
    }
}

/// So many whole numbers from one on.
fn written_numbers<'a>(alloc: Global, low: i32, count: u64) -> Result<Vec<Written<'a>>, AllocError>
    requires { count < 2 ^ 33 }
    ensures { IfOk result
        (λ v. map written_term v.items ≡ map number (numbers_from low count)) }
{
    let mut values = Vec::new(alloc);
    for offset in 0..count {
        values.push(written_number(low, offset))?;
    }
    Ok(values)
}

fn written_truths<'a>(alloc: Global) -> Result<Vec<Written<'a>>, AllocError>
    ensures { IfOk result (λ v. map written_term v.items
        ≡ syntax.Term.Truth false ∷ syntax.Term.Truth true ∷ []) }
{
    let mut values = Vec::new(alloc);
    values.push(Written::Truth(false))?;
    values.push(Written::Truth(true))?;
    Ok(values)
}

fn written_enumerators(
    alloc: Global,
    enumerators: &[Enumerator],
) -> Result<Vec<Written<'_>>, AllocError>
    ensures { IfOk result
        (λ v. map written_term v.items ≡ map named_by (enumerators_said enumerators.now)) }
{
    let mut values = Vec::new(alloc);
    for enumerator in enumerators {
        values.push(Written::Enumerator(&enumerator.name))?;
    }
    Ok(values)
}

/// How many whole numbers there are from one to another.
fn number_count(low: i32, high: i32) -> u64
    ensures count { result ≡ length (interval low high) }
    ensures small { result < 2 ^ 33 }
{
    if high < low {
        return 0;
    }
    u64::from(high.abs_diff(low)) + 1
}

fn written_interval<'a>(alloc: Global, low: i32, high: i32) -> Result<Vec<Written<'a>>, AllocError>
    ensures { IfOk result (λ v. map written_term v.items ≡ map number (interval low high)) }
{
    let count = number_count(low, high);
    written_numbers(alloc, low, count)
}

impl<'a> Values<'a> {
    /// How many there are.
    fn count(self) -> u64
        ensures { result ≡ length (values_in self.entry) }
    {
        match self {
            Values::Numbers { low, high } => number_count(low, high),
            Values::Truths => 2,
            Values::Enumerators(enumerators) => enumerators.len() as u64,
            Values::Unknown => 0,
        }
    }

    /// Between which numbers they stay, if there are any: of other values than numbers their
    /// places.
    fn bounds(self) -> Option<Interval>
        ensures { result ≡ interval_of self.entry }
    {
        match self {
            Values::Numbers { low, high } if low <= high => {
                Some(Interval::new(i64::from(low), i64::from(high)))
            }
            Values::Truths => Some(Interval::new(0, 1)),
            Values::Enumerators(enumerators) if !enumerators.is_empty() => {
                Some(Interval::new(0, enumerators.len() as i64 - 1))
            }
            _ => None,
        }
    }

    /// They in order.
    fn all(self, alloc: Global) -> Result<Vec<Written<'a>>, AllocError>
        ensures { IfOk result (λ v. map written_term v.items ≡ values_in self.entry) }
    {
        match self {
            Values::Numbers { low, high } => written_interval(alloc, low, high),
            Values::Truths => written_truths(alloc),
            Values::Enumerators(enumerators) => written_enumerators(alloc, enumerators),
            Values::Unknown => Ok(Vec::new(alloc)),
        }
    }
}

/// The values of a sort as they are written, in order; a fault stands at the place.
///
/// # Errors
/// There are more than 8,192 values (`UnfoldRule::Values`), or memory was refused.
pub fn written_values<'a>(
    alloc: Global,
    sorts: Sorts<'a>,
    sort: &str,
    place: Place,
) -> Result<Vec<Written<'a>>, UnfoldError>
    ensures { MatchResult result
        (λ v. map written_term v.items ≡ spec.written_values (spec_of sorts.entry) sort.now)
        (IsTooLong (spec.written_values (spec_of sorts.entry) sort.now) place) }
{
    let values = values_within(sorts, sort, sorts.declarations.len());
    if values.count() > MAX_OPERATORS as u64 {
        return Err(UnfoldError::Refused(UnfoldFault {
            rule: UnfoldRule::Values,
            place,
        }));
    }
    Ok(values.all(alloc)?)
}

/// The bounds of a sort's values, if there are any: of other values than numbers those of their
/// places.
pub(crate) fn bounds_of_sort(sorts: Sorts<'_>, sort: &str) -> Option<Interval>
    ensures { result ≡ sort_interval (spec_of sorts.entry) sort.now }
{
    values_within(sorts, sort, sorts.declarations.len()).bounds()
}

/// A tuple with one more value in front.
fn with_first<'a>(
    alloc: Global,
    first: Written<'a>,
    others: &[Written<'a>],
) -> Result<Vec<Written<'a>>, AllocError>
    ensures { IfOk result (λ v. map written_term v.items
        ≡ map written_term (first.entry ∷ others.now)) }
{
    let mut tuple = Vec::new(alloc);
    tuple.push(first)?;
    for value in others {
        tuple.push(*value)?;
    }
    Ok(tuple)
}

/// Adds each tuple with one more value in front.
fn push_with_first<'a>(
    alloc: Global,
    all: &mut Vec<Vec<Written<'a>>>,
    first: Written<'a>,
    tuples: &[Vec<Written<'a>>],
) -> Result<(), AllocError>
    ensures { OnOk result (map tuple_of all.new.items
        ≡ map tuple_of all.old.items ++ with_each (written_term first.entry)
        (map tuple_of tuples.now)) }
{
    for tuple in tuples {
        all.push(with_first(alloc, first, tuple)?)?;
    }
    Ok(())
}

/// Each tuple with each value in front, the tuples faster.
fn with_each<'a>(
    alloc: Global,
    values: &[Written<'a>],
    tuples: &[Vec<Written<'a>>],
) -> Result<Vec<Vec<Written<'a>>>, AllocError>
    ensures { IfOk result (λ v. map tuple_of v.items
        ≡ flat_map (λ k. with_each k (map tuple_of tuples.now)) (map written_term values.now)) }
{
    let mut all = Vec::new(alloc);
    for value in values {
        push_with_first(alloc, &mut all, *value, tuples)?;
    }
    Ok(all)
}

/// Whether so many times so many are within the limit.
fn is_within_limit(left: usize, right: usize) -> bool
    ensures { IsTrue result ↔ left * right ≤ MAX_OPERATORS }
{
    match left.checked_mul(right) {
        Some(count) => count <= MAX_OPERATORS,
        None => false,
    }
}

/// How many values a sort has.
fn value_count(sorts: Sorts<'_>, sort: &str) -> u64
    ensures { result ≡ length (spec.written_values (spec_of sorts.entry) sort.now) }
{
    values_within(sorts, sort, sorts.declarations.len()).count()
}

/// Whether there is a value for each variable.
fn has_tuples(sorts: Sorts<'_>, variables: &[Variable<'_>]) -> bool
    ensures { IsTrue result ↔ 0
        < length (spec.written_tuples (spec_of sorts.entry) (map variable_of variables.now)) }
{
    for variable in variables {
        if value_count(sorts, variable.sort) == 0 {
            return false;
        }
    }
    true
}

/// A written value for each variable, for all values, the last fastest; a fault stands at the
/// place.
///
/// # Errors
/// There are more than 8,192 tuples (`UnfoldRule::Values`), or memory was refused.
pub fn written_tuples<'a>(
    alloc: Global,
    sorts: Sorts<'a>,
    variables: &[Variable<'a>],
    place: Place,
) -> Result<Vec<Vec<Written<'a>>>, UnfoldError>
    ensures { MatchResult result
        (λ v. map tuple_of v.items
        ≡ spec.written_tuples (spec_of sorts.entry) (map variable_of variables.now))
        (IsTooLong (spec.written_tuples (spec_of sorts.entry) (map variable_of variables.now))
        place) }
{
    let mut tuples = Vec::new(alloc);
    if !has_tuples(sorts, variables) {
        return Ok(tuples);
    }
    tuples.push(Vec::new(alloc))?;
    for index in (0..variables.len()).rev() {
        let values = written_values(alloc, sorts, variables[index].sort, place)?;
        if !is_within_limit(values.len(), tuples.len()) {
            return Err(UnfoldError::Refused(UnfoldFault {
                rule: UnfoldRule::Values,
                place,
            }));
        }
        tuples = with_each(alloc, &values, &tuples)?;
    }
    Ok(tuples)
}
