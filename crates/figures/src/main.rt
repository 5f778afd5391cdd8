// Compares worked figures with what the running code answers, one line for each.
#![tactic(auto)]

use anyhow::{Context, anyhow};
use margin::{GasRule, HubRule, MarginRule};
use market::{Contract, Opening};
use std::fmt;

// Where the lines go, and how many figures and answers were right, and how many were not.
#[derive(Drop)]
struct Report<'a, P: Print> {
    rt: &'a P,
    right: u32,
    wrong: u32,
}

impl<'a, P: Print> Report<'a, P> {
    fn new(rt: &'a P) -> Report<'a, P> {
        Report {
            rt,
            right: 0,
            wrong: 0,
        }
    }

    // One more, which is right or wrong.
    fn count(&mut self, is_right: bool) {
        let counter = if is_right {
            &mut self.right
        } else {
            &mut self.wrong
        };
        *counter = counter.saturating_add(1);
    }

    // One figure more of many, which is printed only where it is wrong. Says whether it is right.
    fn check<T: Copy + PartialEq + fmt::Display>(
        &mut self,
        name: &str,
        got: T,
        wanted: T,
    ) -> anyhow::Result<bool> {
        let is_right = got == wanted;
        self.count(is_right);
        if !is_right {
            println!(self.rt; "{name}: {got}, WRONG, {wanted} wanted")?;
        }
        Ok(is_right)
    }

    // One figure more, which is printed.
    fn compare<T: Copy + PartialEq + fmt::Display>(
        &mut self,
        name: &str,
        got: T,
        wanted: T,
    ) -> anyhow::Result<()> {
        if self.check(name, got, wanted)? {
            println!(self.rt; "{name}: {got}")?;
        }
        Ok(())
    }

    // One question more; its answer is printed.
    fn judge(&mut self, name: &str, got: bool, wanted: bool) -> anyhow::Result<()> {
        let is_right = got == wanted;
        self.count(is_right);
        let answer = if got { "yes" } else { "no" };
        let mark = if is_right { "" } else { ", WRONG" };
        println!(self.rt; "{name}: {answer}{mark}")?;
        Ok(())
    }

    // The gas days of the first February, first quarter and first year of a house.
    fn calendar(&mut self) -> anyhow::Result<()> {
        for (name, contract, first_year, days) in [
            ("2025, month 1", Contract::Month(1), 2025, 28),
            ("2025, quarter 100", Contract::Quarter(0), 2025, 90),
            ("2025, year 200", Contract::Year(0), 2025, 365),
            ("2028, month 1", Contract::Month(1), 2028, 29),
            ("2028, quarter 100", Contract::Quarter(0), 2028, 91),
            ("2028, year 200", Contract::Year(0), 2028, 366),
        ] {
            self.compare(name, contract.gas_days(first_year), days)?;
        }
        Ok(())
    }

    // Every first year: from 2020 to 2093 each fourth year is a leap year, and no century comes between.
    fn every_year(&mut self) -> anyhow::Result<()> {
        for first in 2020u16..2091 {
            for index in 0u8..4 {
                let leap = u32::from((first + u16::from(index)) % 4 == 0);
                for (name, contract, days) in [
                    ("days of a year", Contract::Year(index), 365 + leap),
                    (
                        "days of a February",
                        Contract::Month(12 * index + 1),
                        28 + leap,
                    ),
                    (
                        "days of a first quarter",
                        Contract::Quarter(4 * index),
                        90 + leap,
                    ),
                    (
                        "days of a last quarter",
                        Contract::Quarter(4 * index + 3),
                        92,
                    ),
                ] {
                    self.check(name, contract.gas_days(first), days)?;
                }
            }
        }
        println!(self.rt; "every year from 2020 to 2093")?;
        Ok(())
    }

    // Both edges of the ranges of prices and rates: whether a price record can be made.
    fn ranges(&mut self) -> anyhow::Result<()> {
        for (name, price, rate, wanted) in [
            ("price 0", 0, 500, false),
            ("price 1", 1, 500, true),
            ("price 4,000,000", 4_000_000, 500, true),
            ("price 4,000,001", 4_000_001, 500, false),
            ("rate 0", 1_000_000, 0, false),
            ("rate 1", 1_000_000, 1, true),
            ("rate 2,000", 1_000_000, 2_000, true),
            ("rate 2,001", 1_000_000, 2_001, false),
        ] {
            self.judge(name, Opening::new(price, rate).is_some(), wanted)?;
        }
        Ok(())
    }

    // Both edges of bands.
    fn bands(&mut self) -> anyhow::Result<()> {
        for (name, opening, rate, price, wanted) in [
            (
                "band 1,000,000 at 500: 1,050,000",
                1_000_000,
                500,
                1_050_000,
                true,
            ),
            (
                "band 1,000,000 at 500: 1,050,001",
                1_000_000,
                500,
                1_050_001,
                false,
            ),
            (
                "band 1,000,000 at 500: 950,000",
                1_000_000,
                500,
                950_000,
                true,
            ),
            (
                "band 1,000,000 at 500: 949,999",
                1_000_000,
                500,
                949_999,
                false,
            ),
            (
                "band 4,000,000 at 2,000: 4,800,000",
                4_000_000,
                2_000,
                4_800_000,
                true,
            ),
            (
                "band 4,000,000 at 2,000: 4,800,001",
                4_000_000,
                2_000,
                4_800_001,
                false,
            ),
            ("band 1 at 1: 1", 1, 1, 1, true),
            ("band 1 at 1: 2", 1, 1, 2, false),
        ] {
            self.judge(name, in_band(opening, rate, price), wanted)?;
        }
        Ok(())
    }

    // The units of the gas rule and of a hub rule.
    fn rules(&mut self) -> anyhow::Result<()> {
        let (long, short) = units(&GasRule, 1_000_000);
        self.compare("gas, long, at 1,000,000", long, 102_500)?;
        self.compare("gas, short, at 1,000,000", short, 102_500)?;
        let (rounded, _) = units(&GasRule, 1_000_001);
        self.compare("gas, long, at 1,000,001", rounded, 102_501)?;
        let hub = HubRule::new(1_000, 2_500).ok().context("no hub rule")?;
        let (bought, sold) = units(&hub, 1_000_000);
        self.compare("hub, long, at 1,000,000", bought, 1_100_000)?;
        self.compare("hub, short, at 1,000,000", sold, 275_000)
    }
}

// Whether a price is in the band of an opening price and rate.
fn in_band(opening: u32, rate: u32, price: u32) -> bool {
    Opening::new(opening, rate).is_some_and(|record| record.in_band(price))
}

// A rule's units at an opening price and a rate of 500.
fn units(rule: &impl MarginRule, price: u32) -> (u64, u64) {
    match Opening::new(price, 500) {
        Some(opening) => (rule.long(&opening), rule.short(&opening)),
        None => (0, 0),
    }
}

fn run(rt: &impl Print) -> anyhow::Result<()> {
    let mut report = Report::new(rt);
    report.calendar()?;
    report.every_year()?;
    report.ranges()?;
    report.bands()?;
    report.rules()?;
    let Report { right, wrong, .. } = report;
    println!(rt; "{right} right, {wrong} wrong")?;
    if wrong > 0 {
        return Err(anyhow!("a figure is wrong"));
    }
    Ok(())
}

fn main(rt: HostRuntime) -> anyhow::Result<()> {
    run(&rt)
}
