//! Range lines.

ghost use Rattle.std.specs.Prelude.{◌≡◌, ◌++◌, [], flat_map, map, Contains, MatchResult};
ghost use Rattle.pb_text_tree.specs.Form.{range_form};
ghost use Rattle.pb_typing_declarations.specs.Faults.{IsAmong, repeated};
ghost use Rattle.pb_typing_declarations.specs.Entries.{range_shown};
ghost use Rattle.pb_typing_declarations.specs.Reading.{AreRanges, IsRangeTable};
ghost use Rattle.pb_typing_declarations.specs.Declarations.{empty_faults, range_name};

use crate::entry::Entry;
use crate::fault::{TypeError, TypingFault, TypingRule};
use crate::table::table;
use pb_sorts::Range;
use std::alloc::Global;
use std::collections::HashMap;

/// The ranges by the names of their sorts, if none is empty and no sort has two.
pub(crate) fn range_table(
    alloc: Global,
    ranges: &[pb_text_tree::Range],
) -> Result<HashMap<&'_ str, Range>, TypeError>
    ensures { MatchResult result
        (λ table. IsRangeTable (map range_form ranges.now) table)
        (IsAmong (flat_map empty_faults (map range_form ranges.now)
        ++ repeated (map range_name (map range_form ranges.now)))) }
{
    let entries = read_ranges(alloc, ranges)?;
    table(alloc, &entries)
}

/// The ranges, if none is empty.
fn read_ranges(
    alloc: Global,
    ranges: &[pb_text_tree::Range],
) -> Result<Vec<Entry<'_, Range>>, TypeError>
    ensures { MatchResult result
        (λ entries. AreRanges (map range_form ranges.now) entries.items)
        (IsAmong (flat_map empty_faults (map range_form ranges.now))) }
{
    let mut entries = Vec::new(alloc);
    for range in ranges {
        let value = read_range(range)?;
        entries.push(Entry {
            name: &range.name,
            place: range.place,
            value,
        })?;
    }
    Ok(entries)
}

/// The bounds of a range that isn't empty (T05).
fn read_range(range: &pb_text_tree::Range) -> Result<Range, TypingFault>
    ensures { MatchResult result
        (λ bounds. (empty_faults (range_form range.now) ≡ [])
        × (range_shown bounds ≡ (range.now.low, range.now.high)))
        (Contains (empty_faults (range_form range.now))) }
{
    if range.low <= range.high {
        Ok(Range {
            low: range.low,
            high: range.high,
        })
    } else {
        Err(TypingFault {
            rule: TypingRule::MissingRange,
            place: range.place,
        })
    }
}
