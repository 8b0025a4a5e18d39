//! Where a key stands among keys that rise, found by halving.
//!
//! The memory is lent, so that its keys rise is a premise of each clause, and no type can hold it.
ghost use Rattle.std.specs.Prelude.{◌≡◌, ◌≤◌, ◌<◌, length, IfOk, MatchResult, Err};
ghost use Rattle.std.specs.List.Sorted.{IsSearchInRange};
ghost use Rattle.register.specs.Answers.{put_answer};
ghost use Rattle.register.specs.Lists.{Rising};
ghost use Rattle.register.specs.Places.{Cut, Gap, Spotted};

use crate::answers::PutError;
use crate::order::Key;

// How many keys are before `key`: there it stands or would stand.
pub(crate) fn place<K: Key>(keys: &[K], key: K) -> usize
    ensures within { result ≤ length keys.now }
    ensures cut { Rising K.below keys.now → Cut K.below key keys.now result }
{
    keys.partition_point(
        |other: &K| -> bool
            ensures { result ≡ K.below other.now key }
        { other.before(key) },
    )
}

// The place where a key stands, or else where it would. It stands on `partition_point`: a key has an order and no `Ordering`.
pub(crate) fn find<K: Key>(keys: &[K], key: K) -> Result<usize, usize>
    ensures within { IsSearchInRange result (length keys.now) }
    ensures found { Rising K.below keys.now → Spotted K.below key keys.now result }
{
    let at = place(keys, key);
    match keys.get(at) {
        Some(&found) if !key.before(found) => Ok(at),
        _ => Err(at),
    }
}

// The place where a key is to be put among keys that have so many places.
pub(crate) fn gap<K: Key>(keys: &[K], key: K, places: usize) -> Result<usize, PutError>
    ensures within { IfOk result (λ at. (at ≤ length keys.now) × (length keys.now < places)) }
    ensures found { Rising K.below keys.now → MatchResult result (Gap K.below key keys.now) (λ e. Err e ≡ put_answer K.below key keys.now places) }
{
    match find(keys, key) {
        Ok(_) => Err(PutError::Present),
        Err(_) if keys.len() >= places => Err(PutError::Full),
        Err(at) => Ok(at),
    }
}
