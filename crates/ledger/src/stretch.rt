//! The ends of a stretch of keys.
ghost use Rattle.std.specs.Prelude.{◌≡◌};
ghost use Rattle.register.specs.Kept.{kept, Stands};
ghost use Rattle.register.specs.Lists.{between, Least, Greatest};

use register::{Key, Register};

/// A stretch of keys: those from `low` on that are before `high`.
#[derive(Clone, Copy)]
pub(crate) struct Stretch<K> {
    pub(crate) low: K,
    pub(crate) high: K,
}

impl<K: Key> Stretch<K> {
    /// The first key of the stretch.
    pub(crate) fn first(self, register: &Register<K>, memory: &[K]) -> Option<K>
        ensures { Stands K.below register.now memory.now → Least K.below (between K.below self.low self.high (kept register.now memory.now)) result }
    {
        let key = register.first_from(memory, self.low)?;
        key.before(self.high).then_some(key)
    }

    /// The last.
    pub(crate) fn last(self, register: &Register<K>, memory: &[K]) -> Option<K>
        ensures { Stands K.below register.now memory.now → Greatest K.below (between K.below self.low self.high (kept register.now memory.now)) result }
    {
        let key = register.last_before(memory, self.high)?;
        (!key.before(self.low)).then_some(key)
    }
}
