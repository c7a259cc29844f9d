// The scripts that are read.
ghost use Rattle.std.specs.Prelude.{◌≡◌};

use crate::form::ALL_FORMS;
use crate::statement::{Statement, Turns};
use seg_base::Sequence;
use std::marker::Model;

/// What the bytes of a script spell: the statements of each session, from session 1 on, and the schedule. Each value
/// is what `parse` gives for some bytes, once all forms are built: for those that `print` writes.
#[derive(Drop)]
pub struct Scripts {
    sessions: Sequence<Sequence<Statement>>,
    schedule: Sequence<Turns>,
}

impl Model for Scripts {
    ghost use Rattle.script_text.specs.Script.{Script};

    ghost Value = { Script };

    ghost use Rattle.script_text.specs.declared.form.TheConstants.{ALL_FORMS};
    ghost use Rattle.script_text.specs.Spelled.{IsScript};

    ghost view = { λ s. record { sessions = s.sessions; schedule = s.schedule } };

    ghost invariant = { λ s. IsScript ALL_FORMS (record { sessions = s.sessions; schedule = s.schedule }) };
}

impl Scripts {
    ghost use Rattle.script_text.specs.Script.{Script};
    ghost use Rattle.script_text.specs.Spelled.{IsScript};

    pub(crate) fn from_parts(
        sessions: Sequence<Sequence<Statement>>,
        schedule: Sequence<Turns>,
    ) -> Scripts
        requires { IsScript ALL_FORMS (record { sessions = sessions; schedule = schedule }) }
        ensures { result ≡ record { sessions = sessions; schedule = schedule } }
    {
        Scripts { sessions, schedule }
    }

    /// The statements of the sessions, from session 1 on.
    pub fn sessions(&self) -> &[Sequence<Statement>]
        ensures sessions { result.now ≡ self.now.sessions }
        ensures spelled { IsScript ALL_FORMS self.now }
    {
        self.sessions.as_slice()
    }

    pub fn schedule(&self) -> &[Turns]
        ensures { result.now ≡ self.now.schedule }
    {
        self.schedule.as_slice()
    }

    /// Hands out the sessions and the schedule.
    pub fn into_parts(self) -> (Sequence<Sequence<Statement>>, Sequence<Turns>)
        ensures sessions { result.0 ≡ self.sessions }
        ensures schedule { result.1 ≡ self.schedule }
        ensures spelled { IsScript ALL_FORMS self }
    {
        (self.sessions, self.schedule)
    }
}
