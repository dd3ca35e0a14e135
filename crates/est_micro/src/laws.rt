//! The law that nothing is missed.

ghost use Rattle.est_micro.specs.Laws.{NothingIsMissed};

/// Where no open cell can be decided any more, all that Must and Can decide is decided in the
/// cells.
pub fn nothing_is_missed()
    ensures { NothingIsMissed }
{}
