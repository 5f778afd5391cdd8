// The edges of the ranges and of the band, and the numbers and words of sides, phases and refusals.
use crate::opening::{MAX_PRICE, MAX_RATE, Opening};
use crate::phase::Phase;
use crate::records::Side;
use crate::refusal::Refusal;
use std::test::Fail;

#[test]
fn band_ends_at_its_rate(rt: HostRuntime) -> Result<(), Fail> {
    let opening = Opening::new(1_000_000, 500).ok_or("out of range")?;
    assert!(rt; opening.in_band(1_050_000));
    assert!(rt; !opening.in_band(1_050_001));
    assert!(rt; opening.in_band(950_000));
    assert!(rt; !opening.in_band(949_999));
    Ok(())
}

#[test]
fn band_at_the_top(rt: HostRuntime) -> Result<(), Fail> {
    let opening = Opening::new(MAX_PRICE, MAX_RATE).ok_or("out of range")?;
    assert!(rt; opening.in_band(4_800_000));
    assert!(rt; !opening.in_band(4_800_001));
    assert!(rt; !opening.in_band(u32::MAX));
    Ok(())
}

#[test]
fn ranges_hold_their_edges(rt: HostRuntime) -> Result<(), Fail> {
    let lowest = Opening::new(1, 1).ok_or("out of range")?;
    assert_eq!(rt; lowest.price(), 1);
    assert_eq!(rt; lowest.rate(), 1);
    let highest = Opening::new(4_000_000, 2_000).ok_or("out of range")?;
    assert_eq!(rt; highest.price(), 4_000_000);
    assert_eq!(rt; highest.rate(), 2_000);
    assert!(rt; Opening::new(0, 1).is_none());
    assert!(rt; Opening::new(4_000_001, 1).is_none());
    assert!(rt; Opening::new(1, 0).is_none());
    assert!(rt; Opening::new(1, 2_001).is_none());
    assert!(rt; Opening::new(1, 65_537).is_none());
    Ok(())
}

#[test]
fn numbers_that_are_printed(rt: HostRuntime) {
    assert_eq!(rt; u8::from(Side::Free), 0);
    assert_eq!(rt; u8::from(Side::Sell), 2);
    assert_eq!(rt; u8::from(Refusal::MemberCount), 1);
    assert_eq!(rt; u8::from(Refusal::Cover), 17);
    assert_eq!(rt; u8::from(Refusal::Vault), 50);
    assert_eq!(rt; Refusal::Vault.spot(), 0);
}

#[test]
fn words_that_are_printed(rt: HostRuntime) -> Result<(), Fail> {
    let refused = format!(in rt.alloc(); "{}", Refusal::Member)?;
    assert_eq!(rt; refused.as_str(), "there is no such member");
    let phase = format!(in rt.alloc(); "{}", Phase::PostSession)?;
    assert_eq!(rt; phase.as_str(), "post");
    Ok(())
}
