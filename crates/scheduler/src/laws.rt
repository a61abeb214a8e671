//! Laws of the schedule: what follows from the four conditions alone.

ghost use Rattle.scheduler.specs.Laws.{FewSlots, OneSchedule};

/// Each list of at least one page has exactly one list of slots that meets the four conditions.
pub fn one_schedule()
    ensures { OneSchedule }
{}

/// The slots of a schedule are at most the lengths of its runs, 14 more for each page, and 16.
pub fn few_slots()
    ensures { FewSlots }
{}
