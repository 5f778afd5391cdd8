// The house as a type: the lent tables, the phase, and the size it was opened with.
ghost use Rattle.std.specs.Prelude.{◌≡◌, length, pos};
ghost use Rattle.line.specs.Tables.{records};
ghost use Rattle.market.specs.Records.{no_order, no_lot, no_trade};
ghost use Rattle.house.specs.Sound.{Sound, Limited, Sized, Memberless, Dated, Weighed};

use books::Books;
use line::{Line, Table};
use market::{ContractState, Opening, Order, Phase, Trade};

// A house of the most years has so many contracts.
pub(crate) const SLOTS: usize = 68;

// How a contract stands: its state, and its price record, or a placeholder if it was never listed.
#[derive(Clone, Copy)]
pub(crate) struct Standing {
    pub(crate) state: ContractState,
    pub(crate) opening: Opening,
}

// Before the opening it has no members and no years, as its state says: an Option about them would say the phase twice.
#[derive(Drop)]
pub struct House<'a> {
    pub(crate) orders: Line<'a, Order>,
    pub(crate) books: Books<'a>,
    pub(crate) tape: Table<'a, Trade>,
    pub(crate) phase: Phase,
    pub(crate) first_year: u16,
    pub(crate) next_number: u32, // of the next accepted order
    pub(crate) contracts: [Standing; SLOTS], // by slot
    ghost waiting: { Sound no_order phase orders.table },
    ghost holding: { Sound no_lot phase books.lots.line.table },
    ghost taped: { Sound no_trade phase tape },
    ghost earned: { Sound (pos 0) phase books.results },
    ghost few_orders: { Limited 256 phase orders.table },
    ghost few_lots: { Limited 8192 phase books.lots.line.table },
    ghost few_trades: { Limited 4096 phase tape },
    ghost weighed: { Weighed books tape },
    ghost sized: { Sized phase books.members },
    ghost vacant: { Memberless phase books.members },
    ghost dated: { Dated phase first_year books.years },
    ghost slots: { length contracts ≡ 68 },
}
