//! The laws.
ghost use Rattle.work_laws.specs.Needed.{WorkIsNeeded};
ghost use Rattle.work_laws.specs.Ordered.{WorkHasOrder};

/// An item is in the work of an accepted script exactly where it is needed: the script's actions, the lines that they name,
/// and the lines that needed lines name.
pub fn work_is_needed()
    ensures { WorkIsNeeded }
{}

/// In the work of an accepted script each item stands once and behind the lines that it names, and the actions stand in
/// script order.
pub fn work_has_order()
    ensures { WorkHasOrder }
{}
