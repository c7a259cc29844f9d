// Which forms of lines are built.
use script_text::Forms;

/// What a session can run today: each form is opened here.
pub const BUILT_FORMS: Forms = Forms {
    sessions: true,
    schedule: true,
    flushes: false,
    compact: true,
    shrink: true,
    usage: true,
    fix: true,
    repair: true,
    checkpoint: false,
};
