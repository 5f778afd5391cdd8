// What a member holds in a contract.
ghost use Rattle.std.specs.Prelude.{◌≡◌, ◌*◌, ◌≤◌, true, length, unsigned_abs};
ghost use Rattle.line.specs.Tables.{records, whole};
ghost use Rattle.lots.specs.Lots.{fit};
ghost use Rattle.lots.specs.Sums.{lot_net, lot_value, net, value};

use crate::close::difference;
use crate::place::first_key;
use crate::table::Lots;
use market::{Lot, Side};

#[derive(Clone, Copy, PartialEq, Eq, Default, Debug)]
pub struct Holding {
    pub net: i64, // bought less sold, thousand Sm³ a gas day
    pub value: i64, // sold less bought quantity × price, kuruş a gas day
}

impl Lots<'_> {
    // The net quantity of the member's lots in the contract, and their value: a search, and then its lots alone.
    pub fn holding(&self, member: u8, contract: u8) -> Holding
        requires { length (whole self.now.line.table) ≤ 8192 }
        ensures net { result.net ≡ net member contract (records self.now.line.table) }
        ensures value { result.value ≡ value member contract (records self.now.line.table) }
        ensures small { unsigned_abs result.net ≤ 2500 * 8192 }
        ensures bound { unsigned_abs result.value ≤ 10000000000 * 8192 }
    {
        let from = self.line.spot(&first_key(member, contract));
        let mut held = Holding::default();
        for lot in &self.records()[from..] {
            if lot.member != member || lot.contract != contract {
                break;
            }
            let one = holding_of(lot);
            held.net += one.net;
            held.value += one.value;
        }
        held
    }
}

// What one lot is.
fn holding_of(lot: &Lot) -> Holding
    requires { fit lot.now ≡ true }
    ensures net { result.net ≡ lot_net lot.now }
    ensures value { result.value ≡ lot_value lot.now }
    ensures small { unsigned_abs result.net ≤ 2500 }
    ensures bound { unsigned_abs result.value ≤ 10000000000 }
{
    let quantity = i64::from(lot.quantity);
    match lot.side {
        Side::Free => Holding::default(),
        Side::Buy => Holding {
            net: quantity,
            value: difference(lot.quantity, 0, lot.price),
        },
        Side::Sell => Holding {
            net: -quantity,
            value: difference(lot.quantity, lot.price, 0),
        },
    }
}
