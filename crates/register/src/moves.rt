//! How keys make room for one and close up after some that leave.
ghost use Rattle.std.specs.Prelude.{◌≡◌, ◌+◌, ◌-◌, ◌<◌, ◌≤◌, length, take};
ghost use Rattle.std.specs.List.{insert, remove_range};

// Moves the keys from `at` on up by one place, over the last, and writes `key` at `at`.
#[tactic(auto, using(crate::proofs::Holes::opened))]
pub(crate) fn open<K: Copy>(keys: &mut [K], at: usize, key: K)
    requires { at < length keys.old }
    ensures { keys.new ≡ insert (take (length keys.old - 1) keys.old) at key }
{
    let last = keys.len() - 1;
    keys.copy_within(at..last, at + 1);
    keys[at] = key;
}

// Moves the keys from `past` on down to `at`.
#[tactic(auto, using(crate::proofs::Holes::removed))]
pub(crate) fn close<K: Copy>(keys: &mut [K], at: usize, past: usize)
    requires { (at ≤ past) × (past ≤ length keys.old) }
    ensures { take (length keys.old - (past - at)) keys.new ≡ remove_range keys.old at past }
{
    keys.copy_within(past.., at);
}
