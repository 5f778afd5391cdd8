// The worked figures through the running code, the edges of the hub rule, and the units at the highest price and rate.
use crate::chosen::ChosenRule;
use crate::gas::GasRule;
use crate::hub::HubRule;
use crate::rule::MarginRule;
use market::Opening;
use std::test::Fail;

// Both units of any rule together: that they fit follows from the law of the trait alone.
fn both<R: MarginRule>(rule: &R, opening: &Opening) -> u64 {
    rule.long(opening) + rule.short(opening)
}

#[test]
fn gas_units(rt: HostRuntime) -> Result<(), Fail> {
    let opening = Opening::new(1_000_000, 500).ok_or("out of range")?;
    assert_eq!(rt; GasRule.long(&opening), 102_500);
    assert_eq!(rt; GasRule.short(&opening), 102_500);
    let above = Opening::new(1_000_001, 500).ok_or("out of range")?;
    assert_eq!(rt; GasRule.long(&above), 102_501);
    assert_eq!(rt; GasRule.short(&above), 102_501);
    Ok(())
}

#[test]
fn hub_units(rt: HostRuntime) -> Result<(), Fail> {
    let rule = HubRule::new(1_000, 2_500)?;
    let opening = Opening::new(1_000_000, 500).ok_or("out of range")?;
    assert_eq!(rt; rule.long(&opening), 1_100_000);
    assert_eq!(rt; rule.short(&opening), 275_000);
    let above = Opening::new(1_000_001, 500).ok_or("out of range")?;
    assert_eq!(rt; rule.long(&above), 1_100_002);
    assert_eq!(rt; rule.short(&above), 275_001);
    Ok(())
}

#[test]
fn hub_rule_edges(rt: HostRuntime) {
    assert_eq!(rt; HubRule::new(0, 0).err().map(u8::from), None);
    assert_eq!(rt; HubRule::new(2_500, 10_000).err().map(u8::from), None);
    assert_eq!(rt; HubRule::new(2_501, 10_000).err().map(u8::from), Some(4));
    assert_eq!(rt; HubRule::new(2_500, 10_001).err().map(u8::from), Some(4));
    assert_eq!(rt; HubRule::new(65_536, 0).err().map(u8::from), Some(4));
    assert_eq!(rt; HubRule::new(0, 65_536).err().map(u8::from), Some(4));
}

#[test]
fn chosen_units(rt: HostRuntime) -> Result<(), Fail> {
    let opening = Opening::new(1_000_000, 500).ok_or("out of range")?;
    let gas = ChosenRule::from(GasRule);
    assert_eq!(rt; gas.long(&opening), 102_500);
    assert_eq!(rt; gas.short(&opening), 102_500);
    let hub = ChosenRule::from(HubRule::new(1_000, 2_500)?);
    assert_eq!(rt; hub.long(&opening), 1_100_000);
    assert_eq!(rt; hub.short(&opening), 275_000);
    assert_eq!(rt; both(&hub, &opening), 1_375_000);
    Ok(())
}

#[test]
fn units_at_the_top(rt: HostRuntime) -> Result<(), Fail> {
    let opening = Opening::new(4_000_000, 2_000).ok_or("out of range")?;
    assert_eq!(rt; both(&GasRule, &opening), 2 * 1_760_000);
    let rule = HubRule::new(2_500, 10_000)?;
    assert_eq!(rt; both(&rule, &opening), 2 * 5_000_000);
    let untaxed = HubRule::new(0, 0)?;
    assert_eq!(rt; untaxed.long(&opening), 4_000_000);
    assert_eq!(rt; untaxed.short(&opening), 0);
    Ok(())
}
