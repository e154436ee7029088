//! What the shapes of data terms allow: their kinds, and intervals within 2^62.

ghost use Rattle.std.specs.Prelude.{◌≡◌, true, false, pos, MatchOption};
ghost use Rattle.pb_base_values.specs.Interval.{literals, singleton, within};
ghost use Rattle.pb_typing_declarations.specs.Entries.{shape_of};
ghost use Rattle.pb_typing_rules.specs.Shapes as shapes;
ghost use Rattle.pb_typing_tree.specs.View.{shape_view};

use pb_base_values::Interval;
use pb_sorts::Carrier;
use pb_typing_tree::Shape;

/// The interval of a literal, if it is within 2^62.
pub fn literal_interval(number: u64) -> Option<Interval>
    ensures { result ≡ within literals (singleton (pos number)) }
{
    if number <= Interval::literals().high() as u64 {
        Some(Interval::singleton(number as i64))
    } else {
        None
    }
}

/// The shape of a carrier's values.
pub fn carrier_shape(carrier: Carrier) -> Shape
    ensures { shape_view result ≡ shape_of carrier }
{
    match carrier {
        Carrier::Bool => Shape::Truths,
        Carrier::Enum(enumeration) => Shape::Places {
            sort: enumeration.sort,
            count: enumeration.count,
        },
        Carrier::Range(range) => {
            Shape::Wholes(Interval::new(i64::from(range.low), i64::from(range.high)))
        }
    }
}

/// Whether values are Booleans.
pub fn is_truth(shape: &Shape) -> bool
    ensures { result ≡ shapes.may_be_truth (shape_view shape.now) }
{
    matches!(shape, Shape::Truths)
}

/// Whether values are whole numbers.
pub(crate) fn is_whole(shape: &Shape) -> bool
    ensures { result ≡ shapes.may_be_whole (shape_view shape.now) }
{
    matches!(shape, Shape::Wholes(_))
}

/// Whether values are of one kind (T04).
pub fn are_alike(left: &Shape, right: &Shape) -> bool
    ensures { result ≡ shapes.may_be_alike (shape_view left.now) (shape_view right.now) }
{
    match (left, right) {
        (Shape::Truths, Shape::Truths) => true,
        (Shape::Places { sort, .. }, Shape::Places { sort: other, .. }) => sort == other,
        (Shape::Wholes(_), Shape::Wholes(_)) => true,
        _ => false,
    }
}

/// What is known of either of two values, if they are of one kind.
pub(crate) fn hull(left: Shape, right: Shape) -> Option<Shape>
    ensures { MatchOption result
        (shapes.may_be_alike (shape_view left) (shape_view right) ≡ false)
        (λ s. (shapes.may_be_alike (shape_view left) (shape_view right) ≡ true)
        × (shape_view s ≡ shapes.shape_hull (shape_view left) (shape_view right))) }
{
    match left {
        Shape::Truths => match right {
            Shape::Truths => Some(Shape::Truths),
            _ => None,
        },
        Shape::Places { sort, count } => match right {
            Shape::Places { sort: s, count: c } if sort == s => Some(Shape::Places {
                sort,
                count: count.max(c),
            }),
            _ => None,
        },
        Shape::Wholes(interval) => match right {
            Shape::Wholes(other) => Some(Shape::Wholes(interval.hull(other))),
            _ => None,
        },
    }
}

/// Whether all values are within 2^62.
pub(crate) fn is_limited(shape: &Shape) -> bool
    ensures { result ≡ shapes.is_limited (shape_view shape.now) }
{
    match shape {
        Shape::Wholes(interval) => interval.is_within(Interval::literals()),
        Shape::Truths => true,
        Shape::Places { count, .. } => {
            let _count = *count;
            true
        }
    }
}
