//! Laws of the redo list on sessions: whose a transaction and a record is, and what the records of one session leave of
//! another. Each is the contract of a function that does nothing.
#![tactic(auto)]

ghost use Rattle.session_laws.specs.Owners.{OthersLeaveSessions, RecordsHaveSessions, SessionsOwnTransactions};

/// An active transaction is of exactly one session, from 1 to 64, and is the last that the session began; so a session has at
/// most one. It is numbered from 1 to the count of those that began.
pub fn sessions_own_transactions()
    ensures { SessionsOwnTransactions }
{}

/// Each allowed record is of a session.
pub fn records_have_sessions()
    ensures { RecordsHaveSessions }
{}

/// A record of one session leaves the active transaction of another, what that session has made, begun and taken back, and
/// changes nothing by its transaction.
pub fn others_leave_sessions()
    ensures { OthersLeaveSessions }
{}
