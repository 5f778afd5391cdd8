// Views: what a house shows of itself. They are no calls, refuse nothing, and are empty before the opening.
ghost use Rattle.std.specs.Prelude.{◌≡◌};
ghost use Rattle.house.specs.View.{Shows, view};

use crate::house::House;
use market::{Lot, Order, Phase, Trade};

// Four, since each shows records of its own type.
impl House<'_> {
    // The resting orders.
    pub fn orders(&self) -> &[Order]
        ensures { Shows result.now (view self.now).orders self.now.phase }
    {
        self.orders.records()
    }

    // The open lots.
    pub fn lots(&self) -> &[Lot]
        ensures { Shows result.now (view self.now).lots self.now.phase }
    {
        self.books.lots.records()
    }

    // The reported trades.
    pub fn tape(&self) -> &[Trade]
        ensures { Shows result.now (view self.now).tape self.now.phase }
    {
        self.tape.records()
    }

    // The results, member by member: months, then quarters, then years. Kuruş per gas day.
    pub fn results(&self) -> &[i64]
        ensures { Shows result.now (view self.now).results self.now.phase }
    {
        self.books.results.records()
    }

    // The phase of the day.
    pub fn phase(&self) -> Phase
        ensures { result ≡ (view self.now).phase }
    {
        self.phase
    }
}
