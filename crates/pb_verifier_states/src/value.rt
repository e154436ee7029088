//! Abstract values: of a carrier, of one kind, accepted by a carrier, and the least one that covers
//! two.

ghost use Rattle.std.specs.Prelude.{◌≡◌};
ghost use Rattle.pb_bytecode_program.specs.Abstract as abstract_values;
ghost use Rattle.pb_bytecode_program.specs.Transfer as transfers;
ghost use Rattle.pb_verifier_states.specs.Inhabited.{HasOrderedEnds};
ghost use Rattle.pb_verifier_states.specs.Join.{hull_of};
ghost use Rattle.pb_bytecode_program.specs.declared.domain.AbstractValue.TheVariants as abstract;

use pb_base_values::Interval;
use pb_bytecode_program::AbstractValue;
use pb_sorts::Carrier;

/// What is known of a value of the carrier.
pub fn abstraction(carrier: Carrier) -> AbstractValue
    ensures { result ≡ abstract_values.abstraction_of carrier }
{
    match carrier {
        Carrier::Bool => AbstractValue::Bool,
        Carrier::Enum(enumeration) => AbstractValue::Enum {
            sort: enumeration.sort,
            count: enumeration.count,
        },
        Carrier::Range(range) => AbstractValue::Int {
            low: i64::from(range.low),
            high: i64::from(range.high),
        },
    }
}

/// The numbers of an interval.
pub fn numbers(interval: Interval) -> AbstractValue
    ensures value { result ≡ abstract.Int interval.low interval.high }
    ensures ordered { HasOrderedEnds result }
{
    AbstractValue::Int {
        low: interval.low(),
        high: interval.high(),
    }
}

/// Whether two values are of one kind.
pub fn are_of_one_kind(a: AbstractValue, b: AbstractValue) -> bool
    ensures { result ≡ abstract_values.same_kind a b }
{
    match (a, b) {
        (AbstractValue::Bool, AbstractValue::Bool) => true,
        (AbstractValue::Int { .. }, AbstractValue::Int { .. }) => true,
        (AbstractValue::Enum { sort: s, .. }, AbstractValue::Enum { sort: t, .. }) => s == t,
        _ => false,
    }
}

/// Whether each value that `a` stands for is one of the carrier (V08).
pub fn is_accepted(a: AbstractValue, carrier: Carrier) -> bool
    ensures { result ≡ transfers.accepts a carrier }
{
    match (a, carrier) {
        (AbstractValue::Bool, Carrier::Bool) => true,
        (AbstractValue::Int { low, high }, Carrier::Range(range)) => {
            i64::from(range.low) <= low && high <= i64::from(range.high)
        }
        (AbstractValue::Enum { sort, count }, Carrier::Enum(enumeration)) => {
            sort == enumeration.sort && count <= enumeration.count
        }
        _ => false,
    }
}

/// Whether `a` is of the carrier's kind.
pub fn is_of_kind(a: AbstractValue, carrier: Carrier) -> bool
    ensures { result ≡ abstract_values.same_kind a (abstract_values.abstraction_of carrier) }
{
    are_of_one_kind(a, abstraction(carrier))
}

/// The least value that covers both, if they are of one kind.
pub fn hull(a: AbstractValue, b: AbstractValue) -> Option<AbstractValue>
    ensures { result ≡ hull_of a b }
{
    match (a, b) {
        (AbstractValue::Bool, AbstractValue::Bool) => Some(AbstractValue::Bool),
        (AbstractValue::Int { low: l, high: h }, AbstractValue::Int { low: m, high: k }) => {
            Some(AbstractValue::Int {
                low: l.min(m),
                high: h.max(k),
            })
        }
        (AbstractValue::Enum { sort: s, count: n }, AbstractValue::Enum { sort: t, count: m })
            if s == t => {
            Some(AbstractValue::Enum {
                sort: s,
                count: n.max(m),
            })
        }
        _ => None,
    }
}
