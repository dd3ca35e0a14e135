//! The laws of runs, and the headline that they make together. Each function does nothing but call
//! the laws that it follows from, if there are any: its contract is the law.
ghost use Rattle.std.specs.Prelude.{◌≡◌, ℕ, List, Some, length, take, slice_get};
ghost use Rattle.history_events.specs.Laws.{InEachRun, WhateverIsSent, EntersWhereOffered};
ghost use Rattle.history_events.specs.Laws.{OffersWhereAllowed, StepsWhereAllowed, LooksWhereThere};
ghost use Rattle.history_events.specs.Laws.{LooksShowTheReaction, ChangesWhatIsAllowed};
ghost use Rattle.history_events.specs.Laws.{DenialsNameTheFirst, EntersAsAllowed, ShowsAsAllowed};
ghost use Rattle.history_events.specs.OneRun.{OneMomentFollows, OneRun, OneEnd};
ghost use Rattle.history_events.specs.Rising.{Rises};
ghost use Rattle.history_events.specs.Runs.{Moment, IsRun, Comes, journal_at};

use reactor_core::laws::{one_load, one_module};

/// Each moment of a run comes after the moments at the places before it.
pub fn moments_come_in_order()
    ensures { (run : List Moment) → IsRun run → (n : ℕ) (m : Moment) → slice_get run n ≡ Some m
        → Comes (take n run) m }
{}

/// The versions along the journal of each slot never fall, and none is over the length of the
/// policy list.
pub fn versions_never_fall()
    ensures { (past : List Moment) (m : Moment) → Comes past m → (slot : ℕ)
        → Rises 0 (length m.before.entries) (journal_at m.before slot) }
{}

/// Change: an accepted command adds its one entry, with its session and version, to the one list
/// that it concerns, which has room for it, and its session may give it at the version of the
/// event; a look, an audit, and what is refused, change no list.
pub fn changes_only_what_is_allowed()
    ensures { InEachRun ChangesWhatIsAllowed }
{}

/// Entry: a signal stands in the inputs of an accepted step exactly when an offer of it was
/// accepted since the slot's last accepted load, step or discard.
pub fn signals_enter_where_offered()
    ensures { InEachRun EntersWhereOffered }
{
    one_module();
}

/// Entry: an offer of an input or inputoutput that isn't pending, in a slot where a module runs, is
/// accepted exactly when its session may offer the signal at the version of the event and no
/// exclusion would be broken.
pub fn offers_are_accepted_where_allowed()
    ensures { InEachRun OffersWhereAllowed }
{
    one_module();
}

/// Entry: a step of a slot where a module runs is accepted exactly when its session may step the
/// slot at the version of the event, each relation holds of what is pending, and there is a
/// constructive reaction to it.
pub fn steps_are_accepted_where_allowed()
    ensures { InEachRun StepsWhereAllowed }
{
    one_module();
}

/// Display: a look is answered with signals exactly when its session lives at the version of the
/// event, a module runs in the slot, and the instant is there. It then shows exactly those that its
/// session may observe at the version of the event, in the order of declaration, each present
/// exactly when it stands in the inputs of the instant that is looked at, or in the outputs of the
/// constructive reaction to them after the instants before it.
pub fn looks_show_the_reaction()
    ensures there { InEachRun LooksWhereThere }
    ensures shown { InEachRun LooksShowTheReaction }
{
    one_module();
}

/// Denial: unless memory is refused, the reply to an event is the first refusal, in the order of
/// the event's rules, whose condition holds, with its fields; and it is no refusal exactly when
/// none of them holds.
pub fn denials_name_the_first_reason()
    ensures { InEachRun DenialsNameTheFirst }
{}

/// The headline. Whatever is sent, in whatever order: a signal enters an instant exactly when an
/// active role's permission and the declared relations allow it; each session is shown exactly the
/// statuses of the signals that it may observe, in the constructive reaction to that instant's
/// inputs; policy and modules change only by allowed commands; and every refusal names the first
/// reason of its command's rules.
pub fn headline()
    ensures entry { WhateverIsSent EntersAsAllowed }
    ensures display { WhateverIsSent ShowsAsAllowed }
    ensures change { WhateverIsSent ChangesWhatIsAllowed }
    ensures denial { WhateverIsSent DenialsNameTheFirst }
{
    moments_come_in_order();
    signals_enter_where_offered();
    offers_are_accepted_where_allowed();
    steps_are_accepted_where_allowed();
    looks_show_the_reaction();
    changes_only_what_is_allowed();
    denials_name_the_first_reason();
}

/// A list of events has one run, unless memory is refused: after the same past, the same event has
/// one reply and leaves one state. Two runs of the same events are the same, or the same up to a
/// moment at which memory is refused to one of them. So what `run_events` answers is determined by
/// its events.
pub fn one_run()
    ensures moment { OneMomentFollows }
    ensures run { OneRun }
    ensures end { OneEnd }
{
    one_module();
    one_load();
}
