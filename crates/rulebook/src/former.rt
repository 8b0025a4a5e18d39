//! A withdrawn trade leaves its sheets as they were before it.
ghost use Rattle.rulebook.specs.Former.{FormerSheets};

/// Stands on its contract: where a trade is taken and later withdrawn, and no other trade of its security and day is taken or withdrawn meanwhile, the full sheet of that security and day is what it was before; so is the public one, where no other trade of it was published meanwhile.
pub fn former_sheets()
    ensures { FormerSheets }
{}
