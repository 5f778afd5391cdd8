// Where the records of the lent tables stand in line.
ghost use Rattle.std.specs.Prelude.{◌≡◌};
ghost use Rattle.line.specs.Places.{rising};
ghost use Rattle.market.specs.Places.{side_rank, order_place, lot_place, call_place};

use crate::records::{Lot, MarginCall, Order, Side};
use line::Placed;
use std::cmp::Reverse;

impl Side {
    // Buys come before sells. A derived order would go by the numbers that are printed, and put free places first.
    fn rank(self) -> u8
        ensures { rising result ≡ side_rank self }
    {
        match self {
            Side::Buy => 0,
            Side::Sell => 1,
            Side::Free => 2,
        }
    }
}

impl Placed for Order {
    ghost place = { order_place };

    fn before(&self, other: &Order) -> bool {
        // the best price comes first: of buys the highest, of sells the lowest
        let prices = match self.side {
            Side::Buy => other.price.cmp(&self.price),
            Side::Sell | Side::Free => self.price.cmp(&other.price),
        };
        (self.contract, self.side.rank())
            .cmp(&(other.contract, other.side.rank()))
            .then(prices)
            .then(self.number.cmp(&other.number))
            .is_lt()
    }
}

impl Placed for Lot {
    ghost place = { lot_place };

    fn before(&self, other: &Lot) -> bool {
        (self.contract, self.member, self.tape) < (other.contract, other.member, other.tape)
    }
}

impl Placed for MarginCall {
    ghost place = { call_place };

    fn before(&self, other: &MarginCall) -> bool {
        (Reverse(self.shortfall), self.member) < (Reverse(other.shortfall), other.member)
    }
}
