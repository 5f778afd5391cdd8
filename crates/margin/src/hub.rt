// The hub rule: the long unit is the taxed price, the short unit a share of it.
ghost use Rattle.std.specs.Prelude.{◌≡◌, ◌+◌, ◌*◌, ◌^◌, ◌≤◌};
ghost use Rattle.std.specs.Result.{result_map_both};
ghost use Rattle.margin.specs.Units.{RoundedUp, accepted_rule, hub_long, hub_short, hub_units};
ghost use Rattle.margin.specs.Bounds.{hub_bounded};
ghost use Rattle.margin.specs.declared.hub.TheConstants.{MAX_TAX, MAX_SHARE};

use crate::rule::{MarginRule, WHOLE_SQUARED};
use market::{Opening, Refusal, WHOLE};

// hundredths of a percent
pub const MAX_TAX: u32 = 2_500;

// hundredths of a percent
pub const MAX_SHARE: u32 = 10_000;

#[derive(Clone, Copy, PartialEq, Eq, Debug)]
pub struct HubRule {
    tax: u16, // hundredths of a percent
    share: u16, // hundredths of a percent
    ghost taxed: { tax ≤ MAX_TAX },
    ghost shared: { share ≤ MAX_SHARE },
}

impl HubRule {
    // The rule of this tax rate and share, if both are in range.
    pub fn new(tax: u32, share: u32) -> Result<HubRule, Refusal>
        ensures { result_map_both (λ h. (h.tax, h.share)) (λ e. e) result ≡ accepted_rule tax share }
    {
        if tax > MAX_TAX || share > MAX_SHARE {
            return Err(Refusal::HubRule);
        }
        Ok(HubRule {
            tax: tax as u16,
            share: share as u16,
        })
    }
}

impl MarginRule for HubRule {
    ghost units = { λ r. hub_units r.tax r.share };

    ghost bounded = { λ r p a _ _ _ _. hub_bounded r.tax r.share p a r.taxed r.shared };

    fn long(&self, opening: &Opening) -> u64
        ensures unit { result ≡ hub_long self.now.tax opening.now.price }
        ensures rounded { RoundedUp (opening.now.price * (10000 + self.now.tax)) (10 ^ 4) result }
    {
        let taxed = u64::from(opening.price()) * (WHOLE + u64::from(self.tax));
        taxed.div_ceil(WHOLE)
    }

    fn short(&self, opening: &Opening) -> u64
        ensures unit { result ≡ hub_short self.now.tax self.now.share opening.now.price }
        ensures rounded { RoundedUp (opening.now.price * self.now.share * (10000 + self.now.tax)) (10 ^ 8) result }
    {
        let shared = u64::from(opening.price()) * u64::from(self.share);
        let taxed = shared * (WHOLE + u64::from(self.tax));
        taxed.div_ceil(WHOLE_SQUARED)
    }
}
