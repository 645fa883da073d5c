//! Laws of the calendar, as the contracts of functions with nothing to do.
ghost use Rattle.search_starts.specs.Calendar.{MonitoredFromOffsets};

/// A set is monitored in the first slots of each of its periods, and in no other.
pub fn monitored_from_offsets()
    ensures { MonitoredFromOffsets }
{}
