// The contracts of a house by month, quarter and year, the months that each covers, and their gas days.
ghost use Rattle.std.specs.Prelude.{◌≡◌, ◌+◌, ◌*◌, ◌<◌, ◌≤◌};
ghost use Rattle.market.specs.Calendar.{index, contract_number, contract_of, contract_at, slot, is_month, first_month, month_count, covers, part_count, part, capped, quarter_of, year_of, year_of_quarter, leap, days_in_month, month_days, gas_days};
ghost use Rattle.market.specs.CalendarLaws.{CalendarLaws, CalendarFigures};

use std::ops::Range;

pub const MONTHS_A_YEAR: u8 = 12;

pub const MONTHS_A_QUARTER: u8 = 3;

pub const QUARTERS_A_YEAR: u8 = 4;

// The numbers of a house's first quarter and of its first year; its first month has number 0.
pub const FIRST_QUARTER_NUMBER: u8 = 100;

pub const FIRST_YEAR_NUMBER: u8 = 200;

// Slots of a year's months and quarters, which come before those of the years.
const SLOTS_BEFORE_YEARS: usize = 16;

// Slots of a year's months and quarters and of the year itself.
const SLOTS_A_YEAR: usize = 17;

// Each holds its index, which counts from 0 at January, the first quarter or the whole of the house's first year.
#[derive(Clone, Copy, PartialEq, Eq, Debug)]
pub enum Contract {
    Month(u8),
    Quarter(u8),
    Year(u8),
}

// The number that stands for the contract in a script and in a print.
impl From<Contract> for u16 {
    ghost from_gives = { λ contract n. n ≡ contract_number contract };

    fn from(contract: Contract) -> u16 {
        match contract {
            Contract::Month(month) => u16::from(month),
            Contract::Quarter(quarter) => u16::from(FIRST_QUARTER_NUMBER) + u16::from(quarter),
            Contract::Year(year) => u16::from(FIRST_YEAR_NUMBER) + u16::from(year),
        }
    }
}

impl Contract {
    // How many contracts a house of so many years has, and each of its members results.
    pub fn count(years: u8) -> usize
        ensures { result ≡ 17 * years }
    {
        SLOTS_A_YEAR * usize::from(years)
    }

    // The contract of this number in a house of so many years, if there is one. No conversion of a number alone, since it takes the years.
    #[tactic(auto, unfolding(crate::specs::Calendar::contract_of))]
    pub fn of(number: u8, years: u8) -> Option<Contract>
        ensures { result ≡ contract_of number years }
    {
        let first_quarter = u16::from(FIRST_QUARTER_NUMBER);
        let first_year = u16::from(FIRST_YEAR_NUMBER);
        let months = u16::from(MONTHS_A_YEAR) * u16::from(years);
        let quarters = u16::from(QUARTERS_A_YEAR) * u16::from(years);
        let wide = u16::from(number);
        if (0..months).contains(&wide) {
            Some(Contract::Month(number))
        } else if (first_quarter..first_quarter + quarters).contains(&wide) {
            Some(Contract::Quarter(number - FIRST_QUARTER_NUMBER))
        } else if (first_year..first_year + u16::from(years)).contains(&wide) {
            Some(Contract::Year(number - FIRST_YEAR_NUMBER))
        } else {
            None
        }
    }

    // The contract of a slot, in a house of so many years.
    #[tactic(auto, unfolding(crate::specs::Calendar::contract_at))]
    pub fn at(slot: usize, years: u8) -> Contract
        requires within { slot < 17 * years }
        requires few { years ≤ 4 }
        ensures { result ≡ contract_at years slot }
    {
        let months = MONTHS_A_YEAR * years;
        let behind_quarters = months + QUARTERS_A_YEAR * years;
        let at = slot as u8;
        if at < months {
            Contract::Month(at)
        } else if at < behind_quarters {
            Contract::Quarter(at - months)
        } else {
            Contract::Year(at - behind_quarters)
        }
    }

    // The contract's place in a member's row of results, in a house of so many years.
    pub fn slot(self, years: u8) -> usize
        ensures { result ≡ slot years self }
    {
        let wide = usize::from(years);
        match self {
            Contract::Month(month) => usize::from(month),
            Contract::Quarter(quarter) => usize::from(MONTHS_A_YEAR) * wide + usize::from(quarter),
            Contract::Year(year) => SLOTS_BEFORE_YEARS * wide + usize::from(year),
        }
    }

    pub fn is_month(self) -> bool
        ensures { result ≡ is_month self }
    {
        matches!(self, Contract::Month(_))
    }

    // The first month that the contract covers.
    pub fn first_month(self) -> u16
        ensures { result ≡ first_month self }
    {
        match self {
            Contract::Month(month) => u16::from(month),
            Contract::Quarter(quarter) => u16::from(MONTHS_A_QUARTER) * u16::from(quarter),
            Contract::Year(year) => u16::from(MONTHS_A_YEAR) * u16::from(year),
        }
    }

    // How many months it covers.
    pub fn month_count(self) -> u8
        ensures { result ≡ month_count self }
    {
        match self {
            Contract::Month(_) => 1,
            Contract::Quarter(_) => MONTHS_A_QUARTER,
            Contract::Year(_) => MONTHS_A_YEAR,
        }
    }

    // The months that it covers.
    fn months(self) -> Range<u16>
        ensures first { result.start ≡ first_month self }
        ensures end { result.end ≡ first_month self + month_count self }
    {
        let first = self.first_month();
        first..first + u16::from(self.month_count())
    }

    // Whether it covers the month of this index.
    pub fn covers(self, month: u8) -> bool
        ensures { result ≡ covers self month }
    {
        self.months().contains(&u16::from(month))
    }

    // How many parts it has: a year its quarters, a quarter its months.
    pub fn part_count(self) -> u8
        ensures { result ≡ part_count self }
    {
        match self {
            Contract::Month(_) => 0,
            Contract::Quarter(_) => MONTHS_A_QUARTER,
            Contract::Year(_) => QUARTERS_A_YEAR,
        }
    }

    // The part of index k. The parts of a house's contracts have small indices; one above 255 comes out as 255.
    pub fn part(self, k: u8) -> Contract
        ensures total { result ≡ capped (part self k) }
        ensures exact { index (part self k) < 256 → result ≡ part self k }
    {
        match self {
            Contract::Month(month) => Contract::Month(month),
            Contract::Quarter(quarter) => {
                Contract::Month(quarter.saturating_mul(MONTHS_A_QUARTER).saturating_add(k))
            }
            Contract::Year(year) => Contract::Quarter(
                year.saturating_mul(QUARTERS_A_YEAR).saturating_add(k),
            ),
        }
    }

    // What covers a month or a quarter: three words of the rules, each a line, that no parameter would make plainer.

    // The quarter that covers the month of this index.
    pub fn quarter_of(month: u8) -> Contract
        ensures { result ≡ quarter_of month }
    {
        Contract::Quarter(month / MONTHS_A_QUARTER)
    }

    // The year that covers the month of this index.
    pub fn year_of(month: u8) -> Contract
        ensures { result ≡ year_of month }
    {
        Contract::Year(month / MONTHS_A_YEAR)
    }

    // The year that the quarter of this index is a part of.
    pub fn year_of_quarter(quarter: u8) -> Contract
        ensures { result ≡ year_of_quarter quarter }
    {
        Contract::Year(quarter / QUARTERS_A_YEAR)
    }

    // The gas days of the contract, in a house that begins in January of this year.
    pub fn gas_days(self, first_year: u16) -> u32
        ensures { result ≡ gas_days first_year self }
    {
        self.months()
            .map(|month| month_days(first_year, month))
            .sum()
    }
}

// The calendar of every house keeps its laws, and the gas days of 2025 and 2028 are the almanac's.
pub fn calendar_laws_stand()
    ensures laws { CalendarLaws }
    ensures figures { CalendarFigures }
{}

// The days of a month of a house, which begins in January of its first year.
fn month_days(first_year: u16, month: u16) -> u32
    ensures { result ≡ month_days first_year month }
{
    let year = u32::from(first_year) + u32::from(month / u16::from(MONTHS_A_YEAR));
    days_in_month(year, month % u16::from(MONTHS_A_YEAR))
}

// The days of a month of a year, from 0 for January to 11 for December.
fn days_in_month(year: u32, month: u16) -> u32
    ensures { result ≡ days_in_month year month }
{
    match month {
        1 if is_leap(year) => 29,
        1 => 28,
        3 | 5 | 8 | 10 => 30,
        _ => 31,
    }
}

fn is_leap(year: u32) -> bool
    ensures { result ≡ leap year }
{
    year % 4 == 0 && year % 100 != 0 || year % 400 == 0
}
