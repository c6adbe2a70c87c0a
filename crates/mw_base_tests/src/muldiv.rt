ghost use Rattle.std.specs.Prelude.{◌≡◌, ◌+◌, ◌≤◌};

use mw_muldiv::{Div, DivKind, DivOut, Mul, MulKind, Wide128};

/// Ticks a divider four times, and tells whether there was no answer.
fn four(unit: &mut Div) -> bool
    requires { unit.old.ticks + 4 ≤ 65 }
    ensures { unit.new.ticks ≡ unit.old.ticks + 4 }
{
    let first = unit.tick();
    let second = unit.tick();
    let third = unit.tick();
    let fourth = unit.tick();
    first.is_none() && second.is_none() && third.is_none() && fourth.is_none()
}

/// Ticks a divider sixteen times, and tells whether there was no answer.
fn sixteen(unit: &mut Div) -> bool
    requires { unit.old.ticks + 16 ≤ 65 }
    ensures { unit.new.ticks ≡ unit.old.ticks + 16 }
{
    let first = four(unit);
    let second = four(unit);
    let third = four(unit);
    let fourth = four(unit);
    first && second && third && fourth
}

/// The answer of a division's 65th tick, if there was none before.
fn answer(kind: DivKind, dividend: Wide128, divisor: u64) -> Option<DivOut> {
    let mut unit = Div::start(kind, dividend, divisor);
    let first = sixteen(&mut unit);
    let second = sixteen(&mut unit);
    let third = sixteen(&mut unit);
    let fourth = sixteen(&mut unit);
    let last = unit.tick();
    if first && second && third && fourth {
        last
    } else {
        None
    }
}

#[test]
fn a_quotient_takes_65_ticks(rt: HostRuntime) {
    let third = DivOut::Done {
        quotient: 0x5555_5555_5555_5555,
        rest: 1,
    };
    let dividend = Wide128 { high: 1, low: 0 };
    assert_eq!(rt; answer(DivKind::Unsigned64, dividend, 3), Some(third));
    let dividend = Wide128 { high: 3, low: 0 };
    assert_eq!(rt;
        answer(DivKind::Unsigned64, dividend, 3),
        Some(DivOut::NoQuotient)
    );
}

#[test]
fn a_product_takes_four_ticks(rt: HostRuntime) {
    let ones = 0xffff_ffff_ffff_ffff;
    let mut unit = Mul::start(MulKind::Signed, ones, ones, Wide128 { high: 0, low: 0 });
    assert_eq!(rt; unit.tick(), None);
    assert_eq!(rt; unit.tick(), None);
    assert_eq!(rt; unit.tick(), None);
    assert_eq!(rt; unit.tick(), Some(Wide128 { high: 0, low: 1 }));
}
