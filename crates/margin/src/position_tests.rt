// The worked figures of a position through the running code, a short position, and the largest figures that the types hold.
use crate::gas::GasRule;
use crate::hub::HubRule;
use crate::position::Position;
use market::Opening;
use std::test::Fail;

#[test]
fn three_lots(rt: HostRuntime) -> Result<(), Fail> {
    let opening = Opening::new(1_000_000, 500).ok_or("out of range")?;
    let position = Position {
        net: 3,
        buys: 0,
        sells: 0,
        result: 80_000,
        value: -3_060_000,
    };
    assert_eq!(rt; position.collateral(&GasRule, &opening, 31), 9_532_500);
    assert_eq!(rt; position.loss(31), 0);
    assert_eq!(rt; position.adjustment(&opening, 31), 1_860_000);
    assert_eq!(rt; position.added(&GasRule, &opening, 31), 11_392_500);
    Ok(())
}

#[test]
fn short_with_orders(rt: HostRuntime) -> Result<(), Fail> {
    let rule = HubRule::new(1_000, 2_500)?;
    let opening = Opening::new(1_000_000, 500).ok_or("out of range")?;
    let position = Position {
        net: -4,
        buys: 5,
        sells: 2,
        result: -70,
        value: 4_000_100,
    };
    assert_eq!(rt; position.long_side(), 1);
    assert_eq!(rt; position.short_side(), 6);
    assert_eq!(rt; position.collateral(&rule, &opening, 30), 30 * 6 * 275_000);
    assert_eq!(rt; position.loss(30), 2_100);
    assert_eq!(rt; position.adjustment(&opening, 30), -3_000);
    assert_eq!(rt;
        position.added(&rule, &opening, 30),
        49_500_000 + 2_100 - 3_000
    );
    Ok(())
}

#[test]
fn largest_figures(rt: HostRuntime) -> Result<(), Fail> {
    let rule = HubRule::new(2_500, 10_000)?;
    let opening = Opening::new(4_000_000, 2_000).ok_or("out of range")?;
    let position = Position {
        net: i64::MIN,
        buys: 0,
        sells: u64::MAX,
        result: i64::MIN,
        value: i64::MIN,
    };
    assert_eq!(rt; position.long_side(), 0);
    assert_eq!(rt; position.short_side(), 27_670_116_110_564_327_423);
    assert_eq!(rt; position.loss(1), 9_223_372_036_854_775_808);
    assert_eq!(rt;
        position.adjustment(&opening, 1),
        4_000_001 * 9_223_372_036_854_775_808
    );
    Ok(())
}
