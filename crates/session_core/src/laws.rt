//! The laws that join the table of a session to the reading of its events. They have no code.
ghost use Rattle.std.specs.Prelude.{◌*◌, ◌≤◌, List, length};
ghost use Rattle.session_core.specs.Told.{Told};
ghost use Rattle.session_core.specs.Table.{Rules, Sitting, opening, Run};
ghost use Rattle.session_core.specs.Reading.{IsReading, IsMade};
ghost use Rattle.session_core.specs.Fuel.{square};
ghost use Rattle.session_core.specs.Seat.{Seat};
ghost use Rattle.session_core.specs.Sets.{TakesAll, HasSets, HasMembers};
ghost use Rattle.session_core.specs.Logged.{log_of};
ghost use Rattle.session_core.specs.Judged.{AreLabelled, verdict_of, IsJudged};
ghost use Rattle.log_text.specs.declared.log.Ending.{Ending};
ghost use Rattle.walk_core.specs.Walked.{IsFresh};

/// What the table makes of any list of events is its reading.
pub fn table_reads()
    ensures { (r : Rules) (events : List Told) (s : Sitting) → 1 ≤ r.patience → Run r opening events s → IsReading r events s }
{}

/// A session takes at most `steps * (patience + 1)²` events.
pub fn table_ends()
    ensures { (r : Rules) (events : List Told) (s : Sitting) → 1 ≤ r.patience → 1 ≤ r.steps → Run r opening events s → length events ≤ r.steps * square r }
{}

/// What is read so, the table makes: the same phase, items and texts.
pub fn readings_run()
    ensures { (r : Rules) (events : List Told) (s : Sitting) → 1 ≤ r.patience → IsReading r events s → IsMade r events s }
{}

/// The sets of a session are those that its events ask for, and no others: so `reached`, where an
/// event is refused as full, is the number of members of these and of the one that is refused.
pub fn sets_counted()
    ensures { (p : Seat) (events : List Told) (q : Seat) → TakesAll p events q → HasSets p events q }
{}

/// The sizes of a session's sets add up to at most the walk's limit, and an event is refused as
/// full only where with the set that it asks for they would pass it; `reached` is that sum.
pub fn members_counted()
    ensures { (p : Seat) (events : List Told) (q : Seat) → IsFresh p.walked → TakesAll p events q → HasMembers p events q }
{}

/// The verdict on the log of a session is that of the session: it fails exactly where the session
/// has failed, at the same place, and is never off.
pub fn logs_judged()
    ensures { (r : Rules) (events : List Told) (s : Sitting) (e : Ending) → AreLabelled r → IsReading r events s → IsJudged r (log_of r s e) (verdict_of s.phase) }
{}
