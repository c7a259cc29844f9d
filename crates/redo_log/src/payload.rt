// The records of a group.
ghost use Rattle.std.specs.Prelude.{◌≡◌, ◌+◌, ◌<◌, ◌-◌, ◌^◌, ℕ, List, length, reverse};
ghost use Rattle.redo_log.specs.Found.{IsAdded};

use crate::LogFault;
use redo_record::{Record, RecordFault, decode};
use std::alloc::Global;

/// Adds the records of a payload that stands at a place of the log, in order. `BadLog` names the place of the first that
/// isn't one.
pub(crate) fn add_records(
    alloc: Global,
    payload: &[u8],
    at: u64,
    into: &mut Vec<Record>,
) -> Result<(), LogFault>
    requires { at + length payload.now < 2 ^ 64 }
    ensures { IsAdded payload.now at (reverse into.old.items) (reverse into.new.items) result }
{
    let mut place = 0;
    while place < payload.len() {
        match decode(alloc, payload, place) {
            Ok((rec, next)) => {
                match into.push(rec) {
                    Ok(()) => {}
                    Err(_) => return Err(LogFault::NoMemory),
                }
                place = next;
            }
            Err(RecordFault::BadRecord { offset: _ }) => {
                let offset = at + place as u64;
                let seen = payload[place];
                return Err(LogFault::BadLog { offset, seen });
            }
            Err(RecordFault::NoMemory) => return Err(LogFault::NoMemory),
        }
    }
    Ok(())
}
