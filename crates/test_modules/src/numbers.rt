//! Ranges, and the numbers of instances in small layouts and in layouts at the limit.

ghost use Rattle.std.specs.Prelude.{◌<◌};

use pb_sorts::{
    Carrier, Enumeration, Instance, L01, Layout, LayoutError, Range, TooManyInstances, Tuple,
};
use std::alloc::{AllocError, Global};
use std::test::Fail;

fn enumeration(count: u8) -> Carrier
    requires { 0 < count }
{
    Carrier::Enum(Enumeration { sort: 0, count })
}

fn instance(alloc: Global, equation: u8, values: &[i64]) -> Result<Instance, AllocError> {
    Ok(Instance {
        equation,
        values: Tuple::from_slice(alloc, values)?,
    })
}

/// Two equations, of which one has a parameter of two values, the other one of three values and a
/// truth value.
fn two_equations(alloc: Global) -> Result<Layout, Fail> {
    let equations = [
        vec![in alloc; enumeration(2)]?,
        vec![in alloc; enumeration(3), Carrier::Bool]?,
    ];
    Ok(Layout::new(alloc, &equations)?)
}

/// Instances of these equations with their numbers: one that is outside a carrier, has too few
/// values, or is of no equation has none.
const NUMBERS: [(u8, &[i64], Option<u64>); 7] = [
    (0, &[0], Some(0)),
    (0, &[1], Some(1)),
    (1, &[1, 0], Some(4)),
    (1, &[2, 1], Some(7)),
    (1, &[3, 0], None),
    (1, &[1], None),
    (2, &[1, 0], None),
];

#[test]
fn instances_are_numbered(rt: HostRuntime) -> Result<(), Fail> {
    let alloc = rt.alloc();
    let layout = two_equations(alloc)?;
    for (equation, values, number) in NUMBERS {
        assert!(rt; layout.number(&instance(alloc, equation, values)?) == number);
    }
    Ok(())
}

#[test]
fn layouts_have_sizes(rt: HostRuntime) -> Result<(), Fail> {
    let layout = two_equations(rt.alloc())?;
    if layout.equation_count() != 2 || layout.count() != 8 {
        panic!(rt; "the layout has another size");
    }
    assert!(rt; layout.first(1) == 2 && layout.size(1) == 6 && layout.carriers(1).len() == 2);
    assert!(rt; layout.equation_of(7) == 1);
    let last = layout.instance(7);
    assert!(rt; last.equation == 1 && last.values.as_slice() == [2, 1].as_slice());
    Ok(())
}

/// L02.
#[test]
fn instances_are_limited(rt: HostRuntime) -> Result<(), Fail> {
    let alloc = rt.alloc();
    let wide = Carrier::range(0, 1023)?;
    let cube = [vec![in alloc; wide, wide, wide]?];
    assert!(rt; Layout::new(alloc, &cube).err() == Some(LayoutError::Refused(TooManyInstances)));
    let most = [vec![in alloc; Carrier::range(0, 4_194_303)?]?];
    let layout = Layout::new(alloc, &most)?;
    assert!(rt; layout.count() == 4_194_304);
    let more = [vec![in alloc; Carrier::range(0, 4_194_304)?]?];
    assert!(rt; Layout::new(alloc, &more).err() == Some(LayoutError::Refused(TooManyInstances)));
    Ok(())
}

#[test]
fn no_equation_has_no_instance(rt: HostRuntime) -> Result<(), Fail> {
    let layout = Layout::new(rt.alloc(), &[])?;
    assert!(rt; layout.count() == 0);
    Ok(())
}

/// L01.
#[test]
fn ranges_are_not_empty_and_within_32_bits(rt: HostRuntime) {
    assert!(rt; Carrier::range(3, 2) == Err(L01));
    assert!(rt; Carrier::range(0, 2_147_483_648) == Err(L01));
    assert!(rt; Carrier::range(3, 3) == Ok(Carrier::Range(Range { low: 3, high: 3 })));
}
