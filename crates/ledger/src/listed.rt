//! The listed securities with their totals.
ghost use Rattle.std.specs.Prelude.{◌≡◌, ◌<◌, ◌≤◌, ◌++◌, map, length, take, drop, slice_index_or, slice_set};
ghost use Rattle.ledger.specs.Places.{place_of};
ghost use Rattle.ledger.specs.Listing.{Listing};
ghost use Rattle.ledger.specs.Totalled.{slot_of, with_slot, with_totals, with_trade, without_trade, moved_on, at_slot};

use super::slot::Slot;
use super::totals::Totals;
use identifier::Isin;
use report::figures::Sheet;
use report::report::Report;
use report::security::Security;

/// A security, and its totals in each held day, the latest first.
#[derive(Clone, Copy)]
pub struct Listed {
    pub security: Security,
    pub slots: [Slot; 3],
}

// Within a listed security its place has no meaning, so that its `totals` and `write` take slot and sheet alone.
/// Whose totals: those of the security at a place, in the slot of a held day, on a sheet.
#[derive(Clone, Copy)]
pub struct Account {
    pub place: usize,
    pub slot: usize,
    pub sheet: Sheet,
}

impl Listed {
    /// A security that has no trades yet.
    fn untraded(security: &Security) -> Listed
        ensures { result ≡ Rattle.ledger.specs.Listing.untraded security.now }
    {
        Listed {
            security: *security,
            slots: [Slot::none(); 3],
        }
    }

    /// The totals in a slot of a sheet; none past the last slot.
    fn totals(&self, slot: usize, sheet: Sheet) -> Totals
        ensures { result ≡ slot_of slot sheet self.now }
    {
        match self.slots.get(slot) {
            Some(held) => held.on(sheet),
            None => Totals::none(),
        }
    }

    /// Writes the totals in a slot of a sheet, where there is one.
    fn write(&mut self, slot: usize, sheet: Sheet, totals: Totals)
        ensures { self.new ≡ with_slot slot sheet totals self.old }
    {
        // `get_mut` promises nothing of what the array holds afterwards.
        if slot < self.slots.len() {
            self.slots[slot].write(sheet, totals);
        }
    }

    /// Each slot moves on by one, and the first has no trades.
    fn move_on(&mut self)
        ensures { self.new ≡ moved_on self.old }
    {
        self.slots = [Slot::none(), self.slots[0], self.slots[1]];
    }
}

/// The place of the security that has the ISIN.
pub fn place_of(listed: &[Listed], isin: &Isin) -> Option<usize>
    ensures { result ≡ place_of listed.now isin.now }
{
    listed.iter().position(|one| one.security.isin.same(isin))
}

// These calls could not fail and do not: where there is no such place or slot, there are no totals, and nothing is counted.

/// The totals of an account; none where there is no such place or slot.
pub fn totals_at(listed: &[Listed], at: Account) -> Totals
    ensures { result ≡ at_slot listed.now at.place at.slot at.sheet }
{
    match listed.get(at.place) {
        Some(one) => one.totals(at.slot, at.sheet),
        None => Totals::none(),
    }
}

/// Writes the totals of an account, where there is such a place and slot.
fn write(listed: &mut [Listed], at: Account, totals: Totals)
    ensures { (d : Listed) → listed.new ≡ with_totals listed.old at.place at.slot at.sheet totals d }
{
    // `get_mut` promises nothing of what the slice holds afterwards.
    if at.place < listed.len() {
        listed[at.place].write(at.slot, at.sheet, totals);
    }
}

/// Counts a trade in, where there is such a place and slot.
pub fn count_in(listed: &mut [Listed], at: Account, report: &Report)
    ensures { (d : Listed) → listed.new ≡ with_trade listed.old at.place at.slot at.sheet report.now d }
{
    let totals = totals_at(listed, at).plus(report);
    write(listed, at, totals);
}

/// Counts a trade out, where there is such a place and slot.
pub fn count_out(listed: &mut [Listed], at: Account, report: &Report)
    ensures { (d : Listed) → listed.new ≡ without_trade listed.old at.place at.slot at.sheet report.now d }
{
    let totals = totals_at(listed, at).minus(report);
    write(listed, at, totals);
}

// A count stands beside the slice here: the memory is the caller's and has the book's size, whatever is listed.

/// A day was opened: the totals of each of the first `count` move on by one slot.
pub fn open_slot(listed: &mut [Listed], count: usize)
    ensures { listed.new ≡ map moved_on (take count listed.old) ++ drop count listed.old }
{
    let count = count.min(listed.len());
    for one in &mut listed[..count] {
        one.move_on();
    }
}

/// Lists a security: over the one of its ISIN, whose totals stay, or behind the last with totals of none.
/// Where there is no place, nothing changes: the call could not fail and does not. Answers how many are listed then.
pub fn list(listed: &mut [Listed], count: usize, security: &Security) -> usize
    ensures listing { count ≤ length listed.old → Listing security.now count listed.old listed.new result }
    ensures past { length listed.old < count → (listed.new ≡ listed.old) × (result ≡ count) }
{
    if count > listed.len() {
        return count;
    }
    match place_of(&listed[..count], &security.isin) {
        Some(place) => {
            listed[place].security = *security;
            count
        }
        None if count < listed.len() => {
            listed[count] = Listed::untraded(security);
            count + 1
        }
        None => count,
    }
}
