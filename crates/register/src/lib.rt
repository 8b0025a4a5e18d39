//! An ordered register of keys over memory that the caller lends to each call.
//!
//! What a register keeps is `kept`, the list of its keys in order, and nothing else of the memory has a meaning to its caller.
#![tactic(auto)]

ghost use Rattle.std.specs.Prelude.{◌≡◌, ◌≤◌, List, [], length, OnErr};
ghost use Rattle.register.specs.Calls.{Smallest, Largest, FirstFrom, LastBefore, Putting, TakingOut, Dropping};
ghost use Rattle.register.specs.Kept.{kept, Stands};
ghost use Rattle.register.specs.Laws.{Laws};
ghost use Rattle.register.specs.Lists.{before as before_key};

pub mod answers;
pub mod execution;
mod moves;
mod order;
mod places;
pub mod price;
pub mod publication;

use answers::{Absent, PutError};
use moves::{close, open};
pub use order::Key;
use places::{find, gap, place};
use std::marker::PhantomData;

/// An ordered register of keys of one kind, which is lent the same memory at each call.
// It has the count alone: any caller's memory may come in any call, so that its keys rise is a premise of each clause and no invariant.
#[derive(Clone, Copy)]
pub struct Register<K> {
    count: usize,
    kind: PhantomData<K>,
}

#[tactic(auto, using(crate::proofs::Calls::reads), unfolding(crate::specs::Kept::kept, crate::specs::Kept::Stands))]
impl<K: Key> Register<K> {
    /// A register that keeps no key, over whatever memory.
    pub fn new() -> Register<K>
        ensures stands { (memory : List K) → Stands K.below result memory }
        ensures empty { (memory : List K) → kept result memory ≡ [] }
        ensures laws { Laws {K = K} K.below }
    {
        Register::keeping(0)
    }

    // The register whose keys are the first `count` of its memory.
    fn keeping(count: usize) -> Register<K>
        ensures { result.count ≡ count }
    {
        let kind = PhantomData;
        Register { count, kind }
    }

    // The keys kept. A count that a stranger's memory has no room for is cut to its length.
    fn keys<'a>(&self, memory: &'a [K]) -> &'a [K]
        ensures value { result.now ≡ kept self.now memory.now }
        ensures within { length result.now ≤ length memory.now }
    {
        &memory[..self.count.min(memory.len())]
    }

    /// The smallest key.
    pub fn smallest(&self, memory: &[K]) -> Option<K>
        ensures { Stands K.below self.now memory.now → Smallest K.below (kept self.now memory.now) result }
    {
        self.keys(memory).first().copied()
    }

    /// The largest key.
    pub fn largest(&self, memory: &[K]) -> Option<K>
        ensures { Stands K.below self.now memory.now → Largest K.below (kept self.now memory.now) result }
    {
        self.keys(memory).last().copied()
    }

    /// The first key from `low` on. Where it is before a bound, it is the least key of the stretch from `low` to that bound.
    pub fn first_from(&self, memory: &[K], low: K) -> Option<K>
        ensures { Stands K.below self.now memory.now → FirstFrom K.below low (kept self.now memory.now) result }
    {
        let keys = self.keys(memory);
        keys[place(keys, low)..].first().copied()
    }

    /// The last key before `high`. Where it is not before a bound, it is the greatest key of the stretch from that bound to `high`.
    pub fn last_before(&self, memory: &[K], high: K) -> Option<K>
        ensures { Stands K.below self.now memory.now → LastBefore K.below high (kept self.now memory.now) result }
    {
        let keys = self.keys(memory);
        keys[..place(keys, high)].last().copied()
    }

    /// How many keys are before `high`.
    pub fn count_before(&self, memory: &[K], high: K) -> usize
        ensures { Stands K.below self.now memory.now → result ≡ length (before_key K.below high (kept self.now memory.now)) }
    {
        place(self.keys(memory), high)
    }
}

#[tactic(auto, using(crate::proofs::Calls::changes), unfolding(crate::specs::Kept::kept, crate::specs::Kept::Stands))]
impl<K: Key> Register<K> {
    /// Puts a key in its place, unless it is in already or there is no place for it.
    pub fn put(&mut self, memory: &mut [K], key: K) -> Result<(), PutError>
        ensures put { Stands K.below self.old memory.old → Putting K.below key self.old memory.old self.new memory.new result }
        ensures refused { OnErr result ((self.new ≡ self.old) × (memory.new ≡ memory.old)) }
    {
        let keys = self.keys(memory);
        let count = keys.len();
        let at = gap(keys, key, memory.len())?;
        open(&mut memory[..count + 1], at, key);
        *self = Register::keeping(count + 1);
        Ok(())
    }

    /// Takes a key out, if it is in.
    pub fn take_out(&mut self, memory: &mut [K], key: K) -> Result<(), Absent>
        ensures taken { Stands K.below self.old memory.old → TakingOut K.below key self.old memory.old self.new memory.new result }
        ensures absent { OnErr result ((self.new ≡ self.old) × (memory.new ≡ memory.old)) }
    {
        let keys = self.keys(memory);
        let count = keys.len();
        let at = find(keys, key).map_err(|_| Absent)?;
        close(&mut memory[..count], at, at + 1);
        *self = Register::keeping(count - 1);
        Ok(())
    }

    /// Drops all keys before `low`, in one move, and says how many went.
    pub fn drop_before(&mut self, memory: &mut [K], low: K) -> usize
        ensures dropped { Stands K.below self.old memory.old → Dropping K.below low self.old memory.old self.new memory.new result }
        ensures none { result ≡ 0 → ((self.new ≡ self.old) × (memory.new ≡ memory.old)) }
    {
        let keys = self.keys(memory);
        let count = keys.len();
        let gone = place(keys, low);
        if gone > 0 {
            close(&mut memory[..count], 0, gone);
            *self = Register::keeping(count - gone);
        }
        gone
    }
}
