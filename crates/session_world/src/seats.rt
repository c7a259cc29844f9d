// The sessions of a run, each with what it is to settle.
ghost use Rattle.std.specs.Prelude.{◌≡◌, ◌+◌, ℕ, length, IfOk, OnOk};
ghost use Rattle.session_world.specs.Seats.{AreShrinks, told_at, unstarted, with_shrink};

use seg_base::{Lsn, NoMemory};
use session_core::{Doing, Dues, OpenShrink};
use session_step::Session;
use std::alloc::Global;

/// A session, and the row blocks that it is to settle.
#[derive(Drop)]
pub struct Seat {
    pub session: Session,
    pub dues: Dues,
}

fn fresh_seat(alloc: Global) -> Seat
    ensures { result.session ≡ unstarted }
{
    Seat {
        session: Session {
            told: 0,
            begins: Lsn(0),
            doing: Doing::Waiting,
            own: None,
        },
        dues: Dues::new(alloc),
    }
}

/// So many sessions that haven't started, and owe nothing.
pub fn fresh_seats(alloc: Global, count: usize) -> Result<Vec<Seat>, NoMemory>
    ensures count { IfOk result (λ seats. length seats.items ≡ count) }
    ensures fresh { (w : ℕ) → IfOk result (λ seats. told_at seats.items w ≡ unstarted) }
{
    if count == 0 {
        return Ok(Vec::new(alloc));
    }
    let mut seats = fresh_seats(alloc, count - 1)?;
    seats.push(fresh_seat(alloc))?;
    Ok(seats)
}

/// The number of the session in a seat.
fn session_in(at: usize) -> Result<u8, NoMemory>
    ensures { IfOk result (λ v. v ≡ at + 1) }
{
    // No run has so many sessions.
    if at >= usize::from(u8::MAX) {
        return Err(NoMemory);
    }
    Ok(at as u8 + 1)
}

/// Adds the shrink of session `v`, if it is another one than session `who` and shrinks a table.
fn add_shrink(
    shrinks: &mut Vec<OpenShrink>,
    session: &Session,
    v: u8,
    who: u8,
) -> Result<(), NoMemory>
    ensures { OnOk result (shrinks.new.items ≡ with_shrink v who session.now.doing shrinks.old.items) }
{
    if v == who {
        return Ok(());
    }
    match session.shrinks() {
        None => Ok(()),
        Some(obj) => {
            shrinks.push(OpenShrink { who: v, obj })?;
            Ok(())
        }
    }
}

/// The shrinks of the sessions in these seats that are under way, but for that of session `who`.
pub fn open_shrinks(alloc: Global, seats: &[Seat], who: u8) -> Result<Vec<OpenShrink>, NoMemory>
    ensures { IfOk result (λ ks. AreShrinks seats.now who (length seats.now) ks.items) }
{
    let mut shrinks = Vec::new(alloc);
    for at in 0..seats.len() {
        let v = session_in(at)?;
        add_shrink(&mut shrinks, &seats[at].session, v, who)?;
    }
    Ok(shrinks)
}
