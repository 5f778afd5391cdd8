// The price record of a listed contract: what its band and its margin are measured from.
ghost use Rattle.std.specs.Prelude.{◌≡◌, ◌≤◌};
ghost use Rattle.std.specs.Option.{option_map};
ghost use Rattle.market.specs.Opening.{accepted, in_band};
ghost use Rattle.market.specs.declared.opening.TheConstants.{MAX_PRICE, MAX_RATE};

// kuruş per thousand Sm³
pub const MAX_PRICE: u32 = 4_000_000;

// hundredths of a percent
pub const MAX_RATE: u32 = 2_000;

// A whole in hundredths of a percent.
pub const WHOLE: u64 = 10_000;

#[derive(Clone, Copy, PartialEq, Eq, Debug)]
pub struct Opening {
    price: u32, // the latest base or announced price, kuruş per thousand Sm³
    rate: u16, // hundredths of a percent
    ghost priced: { (1 ≤ price) × (price ≤ MAX_PRICE) },
    ghost rated: { (1 ≤ rate) × (rate ≤ MAX_RATE) },
}

impl Opening {
    // The record of this price and rate, if both are in range.
    pub fn new(price: u32, rate: u32) -> Option<Opening>
        ensures { option_map (λ o. (o.price, o.rate)) result ≡ accepted price rate }
    {
        if !(1..=MAX_PRICE).contains(&price) || !(1..=MAX_RATE).contains(&rate) {
            return None;
        }
        Some(Opening {
            price,
            rate: rate as u16,
        })
    }

    // What stands for the price record of a contract that was never listed; no Default, since the name says that nobody set this price.
    pub fn placeholder() -> Opening
        ensures price { result.price ≡ 1 }
        ensures rate { result.rate ≡ 1 }
    {
        Opening { price: 1, rate: 1 }
    }

    // The record with a new opening price and the same rate, if the price is in range.
    pub fn with_price(&self, price: u32) -> Option<Opening>
        ensures { option_map (λ o. (o.price, o.rate)) result ≡ accepted price self.now.rate }
    {
        Opening::new(price, u32::from(self.rate))
    }

    // kuruş per thousand Sm³
    pub fn price(&self) -> u32
        ensures { result ≡ self.now.price }
    {
        self.price
    }

    // hundredths of a percent
    pub fn rate(&self) -> u16
        ensures { result ≡ self.now.rate }
    {
        self.rate
    }

    // Whether a price is no further from the opening price than the rate allows.
    pub fn in_band(&self, price: u32) -> bool
        ensures { result ≡ in_band self.now.price self.now.rate price }
    {
        let distance = self.price.abs_diff(price);
        WHOLE * u64::from(distance) <= u64::from(self.rate) * u64::from(self.price)
    }
}
