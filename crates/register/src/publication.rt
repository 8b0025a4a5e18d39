//! Keys by publication.
ghost use Rattle.register.specs.Keys.{publication_fields};
ghost use Rattle.register.specs.Fields.{by_fields};
ghost use Rattle.register.specs.Orders.{publication_ordered};

use crate::order::Key;

/// The moment at which a trade is to be published, with the trade's day and serial.
#[derive(Clone, Copy, PartialEq, Eq, PartialOrd, Ord, Debug)]
pub struct PublicationKey {
    pub moment: u64,
    pub day: u32,
    pub serial: u32,
}

impl Key for PublicationKey {
    ghost below = { by_fields publication_fields };

    ghost ordered = { publication_ordered };

    // The derived order under the trait's own word, whose law says more than `Ord`'s.
    fn before(self, other: PublicationKey) -> bool {
        self < other
    }
}
