//! Keys by execution.
ghost use Rattle.register.specs.Keys.{execution_fields};
ghost use Rattle.register.specs.Fields.{by_fields};
ghost use Rattle.register.specs.Orders.{execution_ordered};

use crate::order::Key;

/// A trade's execution moment among those of its day and security.
#[derive(Clone, Copy, PartialEq, Eq, PartialOrd, Ord, Debug)]
pub struct ExecutionKey {
    pub day: u32,
    pub security: u8,
    pub moment: u64,
    pub serial: u32,
}

impl Key for ExecutionKey {
    ghost below = { by_fields execution_fields };

    ghost ordered = { execution_ordered };

    // The derived order under the trait's own word, whose law says more than `Ord`'s.
    fn before(self, other: ExecutionKey) -> bool {
        self < other
    }
}
