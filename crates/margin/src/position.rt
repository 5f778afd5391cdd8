// A member's position in a contract, and the cover that it asks: collateral, loss and adjustment.
ghost use Rattle.std.specs.Prelude.{◌≡◌, ◌*◌, ◌^◌, ◌<◌, ◌≤◌, List, pos, ◌-ℤ◌, ◌*ℤ◌, neg_ℤ, unsigned_abs};
ghost use Rattle.market.specs.declared.records.Lot.{Lot};
ghost use Rattle.margin.specs.Cover.{CoverFigures, LotsOf, added, adjustment, collateral, long_side, lots_adjustment, loss, short_side, weight};

use crate::rule::MarginRule;
use market::Opening;

#[derive(Clone, Copy, PartialEq, Eq, Debug)]
pub struct Position {
    pub net: i64, // bought less sold lots, thousand Sm³ a gas day
    pub buys: u64, // resting buys, thousand Sm³ a gas day
    pub sells: u64, // resting sells, thousand Sm³ a gas day
    pub result: i64, // what its closings earned, kuruş per gas day
    pub value: i64, // sold less bought quantity × price of its lots, kuruş per gas day
}

// The opening price and the gas days are given beside a position: `loss` needs no price, and the two sides neither.
impl Position {
    // What the member is long once all its resting buys have traded, thousand Sm³ a gas day.
    pub fn long_side(&self) -> u128
        ensures side { result ≡ long_side self.now }
        ensures bounded { result < 3 * 2 ^ 63 }
    {
        (i128::from(self.net) + i128::from(self.buys)).max(0) as u128
    }

    // What the member is short once all its resting sells have traded, thousand Sm³ a gas day.
    pub fn short_side(&self) -> u128
        ensures side { result ≡ short_side self.now }
        ensures bounded { result < 3 * 2 ^ 63 }
    {
        (i128::from(self.sells) - i128::from(self.net)).max(0) as u128
    }

    // What the larger side asks, kuruş.
    #[tactic(auto, unfolding(crate::specs::Cover::collateral))]
    pub fn collateral<R: MarginRule>(&self, rule: &R, opening: &Opening, gas_days: u32) -> u128
        ensures cover { result ≡ collateral (R.units rule.now) opening.now.price opening.now.rate gas_days self.now }
        ensures bounded { result < 3 * 2 ^ 118 }
    {
        let long = self.long_side() * u128::from(rule.long(opening));
        let short = self.short_side() * u128::from(rule.short(opening));
        u128::from(gas_days) * long.max(short)
    }

    // What closings at a loss ask, kuruş.
    #[tactic(auto, unfolding(crate::specs::Cover::loss))]
    pub fn loss(&self, gas_days: u32) -> u128
        ensures cover { result ≡ loss gas_days self.now }
        ensures bounded { result < 2 ^ 96 }
    {
        u128::from(gas_days) * u128::from(self.result.min(0).unsigned_abs())
    }

    // By how much the lots stand worse at the opening price than at their own prices, kuruş.
    pub fn adjustment(&self, opening: &Opening, gas_days: u32) -> i128
        ensures cover { result ≡ adjustment opening.now.price gas_days self.now }
        ensures lots { (lots : List Lot) → LotsOf self.now lots → result ≡ pos gas_days *ℤ lots_adjustment opening.now.price lots }
        ensures bounded { unsigned_abs result < 2 ^ 117 }
    {
        times(gas_days, self.daily_adjustment(opening))
    }

    // The adjustment, kuruş per gas day.
    fn daily_adjustment(&self, opening: &Opening) -> i128
        ensures daily { result ≡ neg_ℤ self.now.value -ℤ pos opening.now.price *ℤ self.now.net }
        ensures bounded { unsigned_abs result < 2 ^ 85 }
    {
        let value = -i128::from(self.value);
        value - times(opening.price(), i128::from(self.net))
    }

    // What the position adds to the requirement in a listed contract, kuruş.
    pub fn added<R: MarginRule>(&self, rule: &R, opening: &Opening, gas_days: u32) -> i128
        ensures cover { result ≡ added (R.units rule.now) opening.now.price opening.now.rate gas_days self.now }
        ensures weighed { unsigned_abs result ≤ gas_days * weight self.now }
        ensures bounded { unsigned_abs result < 2 ^ 120 }
    {
        let asked = self.collateral(rule, opening, gas_days) + self.loss(gas_days);
        asked as i128 + self.adjustment(opening, gas_days)
    }
}

// An amount that may be negative, so many times.
fn times(count: u32, amount: i128) -> i128
    requires { unsigned_abs amount < 2 ^ 95 }
    ensures product { result ≡ pos count *ℤ amount }
    ensures size { unsigned_abs result ≡ count * unsigned_abs amount }
{
    i128::from(count) * amount
}

// Carries the worked figures of a position; it does nothing else.
#[tactic(auto, unfolding(crate::specs::Cover::collateral, crate::specs::Cover::loss, crate::specs::Cover::adjustment, crate::specs::Cover::added))]
pub fn cover_figures_stand()
    ensures { CoverFigures }
{}
