//! Keys by price.
ghost use Rattle.register.specs.Keys.{price_fields};
ghost use Rattle.register.specs.Fields.{by_fields};
ghost use Rattle.register.specs.Orders.{price_ordered};

use crate::order::Key;

/// A trade's price among those of its day and security.
#[derive(Clone, Copy, PartialEq, Eq, PartialOrd, Ord, Debug)]
pub struct PriceKey {
    pub day: u32,
    pub security: u8,
    pub price: u32,
    pub serial: u32,
}

impl Key for PriceKey {
    ghost below = { by_fields price_fields };

    ghost ordered = { price_ordered };

    // The derived order under the trait's own word, whose law says more than `Ord`'s.
    fn before(self, other: PriceKey) -> bool {
        self < other
    }
}
