// The records of the tables that the caller lends to the house.
ghost use Rattle.std.specs.Prelude.{◌≡◌};
ghost use Rattle.market.specs.Records.{side_number, no_order, no_lot, no_trade, no_call};

use line::Blank;

// The numbers stand for the sides in a script and in a print. No Option of two sides: a free place of a lent table is all zeros.
#[derive(Clone, Copy, PartialEq, Eq, Default, Debug)]
pub enum Side {
    #[default]
    Free = 0, // the side of a free place of a lent table
    Buy = 1,
    Sell = 2,
}

impl From<Side> for u8 {
    ghost from_gives = { λ side n. n ≡ side_number side };

    fn from(side: Side) -> u8 {
        side as u8
    }
}

#[derive(Clone, Copy, PartialEq, Eq, Default, Debug)]
pub struct Order {
    pub number: u32,
    pub member: u8,
    pub contract: u8,
    pub side: Side,
    pub quantity: u32, // what is left, thousand Sm³ a gas day
    pub price: u32, // kuruş per thousand Sm³
}

impl Blank for Order {
    ghost blank = { no_order };

    fn empty() -> Order {
        Order::default()
    }
}

#[derive(Clone, Copy, PartialEq, Eq, Default, Debug)]
pub struct Lot {
    pub contract: u8,
    pub member: u8,
    pub tape: u32, // the number on the tape of the trade that it comes from
    pub side: Side,
    pub quantity: u32, // thousand Sm³ a gas day
    pub price: u32, // kuruş per thousand Sm³
}

impl Blank for Lot {
    ghost blank = { no_lot };

    fn empty() -> Lot {
        Lot::default()
    }
}

#[derive(Clone, Copy, PartialEq, Eq, Default, Debug)]
pub struct Trade {
    pub contract: u8,
    pub buyer: u8,
    pub seller: u8,
    pub quantity: u32, // thousand Sm³ a gas day
    pub price: u32, // kuruş per thousand Sm³
}

impl Blank for Trade {
    ghost blank = { no_trade };

    fn empty() -> Trade {
        Trade::default()
    }
}

// A member whose requirement exceeds its balance.
#[derive(Clone, Copy, PartialEq, Eq, Default, Debug)]
pub struct MarginCall {
    pub member: u8,
    pub shortfall: u64, // kuruş
}

impl Blank for MarginCall {
    ghost blank = { no_call };

    fn empty() -> MarginCall {
        MarginCall::default()
    }
}
