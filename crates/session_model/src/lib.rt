//! The sessions of a run, as they are between two events and in the midst of one, and what an event of one session keeps: the
//! whole is legal, the session is as its statement says, and the others are as they were but for the marks of their scans.
//!
//! The functions here do nothing. Their contracts are laws over the definitions.
#![tactic(auto)]

ghost use Rattle.session_model.specs.Laws.{EndedSessions, EventsEnd, EventsFail, EventsGoOn, NoneIsBusy, SessionsEnd, SettlingsKeep, ShrinksAreBusy, StatementsGoOn, StatementsStart, WorldsBegin, WorldsRun};
ghost use Rattle.session_model.specs.Repairs.{LeftAreListed, RepairsBegin, RepairsMean, RepairsPass, RepairsSettle};

/// A run begins with records in which no session has a transaction.
pub fn worlds_begin()
    ensures { WorldsBegin }
{}

/// A session with nothing under way, that isn't at its end, starts its next statement.
pub fn statements_start()
    ensures { StatementsStart }
{}

/// One that is at work goes on.
pub fn statements_go_on()
    ensures { StatementsGoOn }
{}

/// An event after which the statement goes on keeps the whole.
pub fn events_go_on()
    ensures { EventsGoOn }
{}

/// So does one with which it is over, and its entry.
pub fn events_end()
    ensures { EventsEnd }
{}

/// Where an event fails all is legal still, with the statement under way.
pub fn events_fail()
    ensures { EventsFail }
{}

/// A settling leaves every session as it was.
pub fn settlings_keep()
    ensures { SettlingsKeep }
{}

/// Another session's shrink of the table is the cause why a shrink or a change of row movement is refused.
pub fn shrinks_are_busy()
    ensures { ShrinksAreBusy }
{}

/// Where there is none, that cause doesn't apply.
pub fn none_is_busy()
    ensures { NoneIsBusy }
{}

/// A session has ended where it waits, its statements are told, and it has no transaction.
pub fn sessions_end()
    ensures { SessionsEnd }
{}

/// And only there.
pub fn ended_sessions()
    ensures { EndedSessions }
{}

/// What the sessions are makes a run: what is under way is on its way.
pub fn worlds_run()
    ensures { WorldsRun }
{}

/// A repair begins with all the formatted blocks under its table's high mark.
pub fn repairs_begin()
    ensures { RepairsBegin }
{}

/// It goes on past a block that it settled.
pub fn repairs_settle()
    ensures { RepairsSettle }
{}

/// And past one that was released before its event.
pub fn repairs_pass()
    ensures { RepairsPass }
{}

/// The blocks that are left are of its list.
pub fn left_are_listed()
    ensures { LeftAreListed }
{}

/// With none left it means what its entry says.
pub fn repairs_mean()
    ensures { RepairsMean }
{}
