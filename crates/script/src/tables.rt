// What `show` lists: the records of a table, a line to each.
ghost use Rattle.std.specs.Prelude.{◌≡◌, ◌≤◌};

use market::{Contract, Lot, Order, Trade};
use std::fmt;

#[derive(Clone, Copy, PartialEq, Eq, Debug)]
pub(crate) enum Record {
    Order(Order),
    Lot(Lot),
    // Trades on the tape are numbered from 1.
    Trade {
        number: usize,
        trade: Trade,
    },
    // kuruş a gas day
    Result {
        member: usize,
        contract: Contract,
        value: i64,
    },
    // kuruş
    Balance {
        account: u8,
        amount: u64,
    },
}

impl fmt::Display for Record {
    fn fmt<W: fmt::Write>(&self, f: &mut fmt::Formatter<W>) -> fmt::Result {
        match *self {
            Record::Order(
                Order {
                    number,
                    member,
                    contract,
                    side,
                    quantity,
                    price,
                },
            ) => {
                let side = u8::from(side);
                write!(
                    f,
                    "order {number} {member} {contract} {side} {quantity} {price}"
                )
            }
            Record::Lot(
                Lot {
                    contract,
                    member,
                    tape,
                    side,
                    quantity,
                    price,
                },
            ) => {
                let side = u8::from(side);
                write!(
                    f,
                    "lot {contract} {member} {tape} {side} {quantity} {price}"
                )
            }
            Record::Trade {
                number,
                trade: Trade {
                    contract,
                    buyer,
                    seller,
                    quantity,
                    price,
                },
            } => write!(
                f,
                "trade {number} {contract} {buyer} {seller} {quantity} {price}"
            ),
            Record::Result {
                member,
                contract,
                value,
            } => {
                let contract = u16::from(contract);
                write!(f, "result {member} {contract} {value}")
            }
            Record::Balance { account, amount } => write!(f, "balance {account} {amount}"),
        }
    }
}

// How many years an open house has.
#[derive(Clone, Copy)]
pub(crate) struct Years {
    number: u8,
    ghost some: { 1 ≤ number },
    ghost few: { number ≤ 4 },
}

impl Years {
    ghost use Rattle.script.specs.Tables.{result_at};

    pub(crate) fn new(number: u8) -> Years
        requires some { 1 ≤ number }
        requires few { number ≤ 4 }
    {
        Years { number }
    }

    // The record of a result at a place of the table: its member, and its contract.
    pub(crate) fn record(self, place: usize, value: i64) -> Record
        ensures { result ≡ result_at self.number place value }
    {
        let row = Contract::count(self.number);
        Record::Result {
            member: place / row,
            contract: Contract::at(place % row, self.number),
            value,
        }
    }
}
