// Gas days of common and leap years, and the numbers at the edges of each range.
use crate::calendar::Contract;

#[test]
fn gas_days_of_a_common_year(rt: HostRuntime) {
    assert_eq!(rt; Contract::Month(1).gas_days(2025), 28);
    assert_eq!(rt; Contract::Quarter(0).gas_days(2025), 90);
    assert_eq!(rt; Contract::Year(0).gas_days(2025), 365);
}

#[test]
fn gas_days_of_a_leap_year(rt: HostRuntime) {
    assert_eq!(rt; Contract::Month(1).gas_days(2028), 29);
    assert_eq!(rt; Contract::Quarter(0).gas_days(2028), 91);
    assert_eq!(rt; Contract::Year(0).gas_days(2028), 366);
    assert_eq!(rt; Contract::Year(1).gas_days(2023), 366);
    assert_eq!(rt; Contract::Month(37).gas_days(2021), 29);
    assert_eq!(rt; Contract::Year(3).gas_days(2090), 365);
}

#[test]
fn leap_years_of_centuries(rt: HostRuntime) {
    assert_eq!(rt; Contract::Month(1).gas_days(2000), 29);
    assert_eq!(rt; Contract::Month(1).gas_days(2100), 28);
}

#[test]
fn numbers_of_one_year(rt: HostRuntime) {
    assert_eq!(rt; Contract::of(0, 1), Some(Contract::Month(0)));
    assert_eq!(rt; Contract::of(11, 1), Some(Contract::Month(11)));
    assert_eq!(rt; Contract::of(100, 1), Some(Contract::Quarter(0)));
    assert_eq!(rt; Contract::of(103, 1), Some(Contract::Quarter(3)));
    assert_eq!(rt; Contract::of(200, 1), Some(Contract::Year(0)));
    assert_eq!(rt; Contract::of(12, 1), None);
    assert_eq!(rt; Contract::of(99, 1), None);
    assert_eq!(rt; Contract::of(104, 1), None);
    assert_eq!(rt; Contract::of(199, 1), None);
    assert_eq!(rt; Contract::of(201, 1), None);
}

#[test]
fn numbers_of_four_years(rt: HostRuntime) {
    assert_eq!(rt; Contract::of(47, 4), Some(Contract::Month(47)));
    assert_eq!(rt; Contract::of(48, 4), None);
    assert_eq!(rt; Contract::of(115, 4), Some(Contract::Quarter(15)));
    assert_eq!(rt; Contract::of(116, 4), None);
    assert_eq!(rt; Contract::of(203, 4), Some(Contract::Year(3)));
    assert_eq!(rt; Contract::of(204, 4), None);
}

#[test]
fn slots_fill_the_row(rt: HostRuntime) {
    assert_eq!(rt; Contract::Month(47).slot(4), 47);
    assert_eq!(rt; Contract::Quarter(0).slot(4), 48);
    assert_eq!(rt; Contract::Quarter(15).slot(4), 63);
    assert_eq!(rt; Contract::Year(0).slot(4), 64);
    assert_eq!(rt; Contract::Year(3).slot(4), 67);
}

#[test]
fn contracts_of_slots(rt: HostRuntime) {
    assert_eq!(rt; Contract::at(47, 4), Contract::Month(47));
    assert_eq!(rt; Contract::at(48, 4), Contract::Quarter(0));
    assert_eq!(rt; Contract::at(63, 4), Contract::Quarter(15));
    assert_eq!(rt; Contract::at(64, 4), Contract::Year(0));
    assert_eq!(rt; Contract::at(67, 4), Contract::Year(3));
    assert_eq!(rt; Contract::at(16, 1), Contract::Year(0));
}

#[test]
fn numbers_of_contracts(rt: HostRuntime) {
    assert_eq!(rt; u16::from(Contract::Month(47)), 47);
    assert_eq!(rt; u16::from(Contract::Quarter(15)), 115);
    assert_eq!(rt; u16::from(Contract::Year(3)), 203);
}

#[test]
fn parts_and_their_contracts(rt: HostRuntime) {
    assert_eq!(rt; Contract::Year(3).part(3), Contract::Quarter(15));
    assert_eq!(rt; Contract::Quarter(15).part(2), Contract::Month(47));
    assert_eq!(rt; Contract::quarter_of(47), Contract::Quarter(15));
    assert_eq!(rt; Contract::year_of(47), Contract::Year(3));
    assert_eq!(rt; Contract::year_of_quarter(15), Contract::Year(3));
    assert!(rt; Contract::Year(1).covers(12));
    assert!(rt; Contract::Year(1).covers(23));
    assert!(rt; !Contract::Year(1).covers(11));
    assert!(rt; !Contract::Year(1).covers(24));
}
