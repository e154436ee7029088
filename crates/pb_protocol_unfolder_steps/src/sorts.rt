//! The sorts of a protocol.

ghost use Rattle.std.specs.Prelude.{◌≡◌};
ghost use Rattle.pb_protocol_meaning.specs.Erase.{protocol_of};
ghost use Rattle.pb_protocol_meaning.specs.Steps.{data_of};
ghost use Rattle.pb_protocol_unfolder_terms.specs.View.{spec_of};

use pb_protocol_tree::Protocol;
use pb_protocol_unfolder_terms::Sorts;

/// The sorts that a protocol declares, and their ranges.
pub fn sorts_of(protocol: &Protocol) -> Sorts<'_>
    ensures { spec_of result ≡ data_of (protocol_of protocol.now) }
{
    Sorts {
        declarations: &protocol.sorts,
        ranges: &protocol.ranges,
    }
}
