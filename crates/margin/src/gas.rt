// The gas rule: both units are what two rises by the rate, one upon the other, add to the opening price.
ghost use Rattle.std.specs.Prelude.{◌≡◌, ◌+◌, ◌-◌, ◌*◌, ◌^◌};
ghost use Rattle.margin.specs.Units.{RoundedUp, gas_unit, gas_units, square};
ghost use Rattle.margin.specs.Bounds.{gas_bounded};

use crate::rule::{MarginRule, WHOLE_SQUARED};
use market::{Opening, WHOLE};

#[derive(Clone, Copy, PartialEq, Eq, Debug)]
pub struct GasRule;

impl MarginRule for GasRule {
    ghost units = { λ _. gas_units };

    ghost bounded = { λ _ p a _ _ _ high. gas_bounded p a high };

    fn long(&self, opening: &Opening) -> u64
        ensures unit { result ≡ gas_unit opening.now.price opening.now.rate }
        ensures rounded { RoundedUp (opening.now.price * (square (10000 + opening.now.rate) - 10 ^ 8)) (10 ^ 8) result }
    {
        let raised = WHOLE + u64::from(opening.rate());
        let gain = u64::from(opening.price()) * (raised * raised - WHOLE_SQUARED);
        gain.div_ceil(WHOLE_SQUARED)
    }

    fn short(&self, opening: &Opening) -> u64
        ensures unit { result ≡ gas_unit opening.now.price opening.now.rate }
        ensures rounded { RoundedUp (opening.now.price * (square (10000 + opening.now.rate) - 10 ^ 8)) (10 ^ 8) result }
    {
        self.long(opening)
    }
}
