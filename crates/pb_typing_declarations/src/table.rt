//! Look-up tables of declared names.

ghost use Rattle.std.specs.Prelude.{◌≡◌, [], MatchResult};
ghost use Rattle.pb_text_meaning.specs.Syntax.{Name};
ghost use Rattle.pb_typing_declarations.specs.Faults.{repeated, IsAmong};
ghost use Rattle.pb_typing_declarations.specs.Shapes.{first};
ghost use Rattle.pb_typing_declarations.specs.Tables.{entry_names, entry_values, entry_of};

use crate::entry::Entry;
use crate::fault::{TypeError, TypingRule, require};
use std::alloc::Global;
use std::collections::HashMap;

/// The values of names. A name that stands twice is a fault at the later one (T02).
pub(crate) fn table<'a, V: Copy>(
    alloc: Global,
    entries: &[Entry<'a, V>],
) -> Result<HashMap<&'a str, V>, TypeError>
    ensures { MatchResult result
        (λ table. (repeated (entry_names entries.now) ≡ [])
        × ((x : Name) → entry_of table x ≡ first (entry_values entries.now) x))
        (IsAmong (repeated (entry_names entries.now))) }
{
    let mut table = HashMap::new(alloc);
    for entry in entries {
        let earlier = table.insert(entry.name, entry.value)?;
        require(earlier.is_none(), TypingRule::NameTwice, entry.place)?;
    }
    Ok(table)
}
