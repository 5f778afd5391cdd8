// The rule in force where either of the two may be chosen.
use crate::gas::GasRule;
use crate::hub::HubRule;
use crate::rule::MarginRule;
use market::Opening;

#[derive(Clone, Copy, PartialEq, Eq, Debug)]
pub enum ChosenRule {
    Gas(GasRule),
    Hub(HubRule),
}

impl MarginRule for ChosenRule {
    ghost use Rattle.margin.specs.Bounds.{gas_bounded, hub_bounded};
    ghost use Rattle.margin.specs.Chosen.{chosen_units};
    ghost use Rattle.margin.specs.declared.chosen.ChosenRule.TheVariants.{Gas, Hub};

    ghost units = { chosen_units };

    ghost bounded = { elim [
      | Gas rule ↦ λ p a _ _ _ high. gas_bounded p a high
      | Hub rule ↦ λ p a _ _ _ _. hub_bounded rule.tax rule.share p a rule.taxed rule.shared
    ] };

    fn long(&self, opening: &Opening) -> u64 {
        match self {
            ChosenRule::Gas(rule) => rule.long(opening),
            ChosenRule::Hub(rule) => rule.long(opening),
        }
    }

    fn short(&self, opening: &Opening) -> u64 {
        match self {
            ChosenRule::Gas(rule) => rule.short(opening),
            ChosenRule::Hub(rule) => rule.short(opening),
        }
    }
}

impl From<GasRule> for ChosenRule {
    ghost use Rattle.std.specs.Prelude.{◌≡◌};
    ghost use Rattle.margin.specs.declared.chosen.ChosenRule.TheVariants.{Gas};

    ghost from_gives = { λ rule chosen. chosen ≡ Gas rule };

    fn from(rule: GasRule) -> Self {
        Self::Gas(rule)
    }
}

impl From<HubRule> for ChosenRule {
    ghost use Rattle.std.specs.Prelude.{◌≡◌};
    ghost use Rattle.margin.specs.declared.chosen.ChosenRule.TheVariants.{Hub};

    ghost from_gives = { λ rule chosen. chosen ≡ Hub rule };

    fn from(rule: HubRule) -> Self {
        Self::Hub(rule)
    }
}
