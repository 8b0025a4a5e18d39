//! What a register asks of its keys: a total order.
ghost use Rattle.std.specs.Prelude.{◌≡◌, Bool};
ghost use Rattle.register.specs.Order.{Total};

/// A key of a register: its kind has a total order.
// `Ord` would say less, since it may hold keys for equal that are not.
pub trait Key: Copy {
    ghost below: { Self → Self → Bool };

    /// Whether the key is before the other.
    fn before(self, other: Self) -> bool
        ensures { result ≡ below self other };

    ghost ordered: { Total below };
}
