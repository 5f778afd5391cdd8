// What a margin rule means: a long and a short unit for each opening price and rate.
ghost use Rattle.std.specs.Prelude.{◌≡◌, ℕ, ◌*◌, ◌≤◌};
ghost use Rattle.margin.specs.Units.{Units};

use market::{Opening, WHOLE};

// What products of two rates, each in hundredths of a percent, are divided by.
pub const WHOLE_SQUARED: u64 = WHOLE * WHOLE;

pub trait MarginRule {
    // What the rule means: it answers alike each time.
    ghost units: { Self → Units };

    // kuruş per thousand Sm³
    fn long(&self, opening: &Opening) -> u64
        ensures { result ≡ (units self.now).long opening.now.price opening.now.rate };

    // kuruş per thousand Sm³
    fn short(&self, opening: &Opening) -> u64
        ensures { result ≡ (units self.now).short opening.now.price opening.now.rate };

    // No unit exceeds twice the opening price.
    ghost bounded: { (r : Self) (p a : ℕ) → 1 ≤ p → p ≤ 4000000 → 1 ≤ a → a ≤ 2000 → ((units r).long p a ≤ 2 * p) × ((units r).short p a ≤ 2 * p) };
}
