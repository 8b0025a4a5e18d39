//! The records of the held days, in the order of their codes.
ghost use Rattle.std.specs.Prelude.{◌≡◌, ◌-◌, min, length, take, drop};

use rulebook::record::Record;

// A count stands beside the slice: the memory is the caller's and has the book's size, whatever is held.
/// Of the first `count` records, moves those behind the first `gone` to the front; no more are moved than there are.
pub fn move_to_front(records: &mut [Record], gone: usize, count: usize)
    ensures moved { take (min count (length records.old) - gone) records.new ≡ drop gone (take count records.old) }
    ensures long { length records.new ≡ length records.old }
{
    let count = count.min(records.len());
    let gone = gone.min(count);
    records.copy_within(gone..count, 0);
}
