// Searches among the entries.
ghost use Rattle.std.specs.Prelude.{◌≡◌, ◌<◌, ◌≤◌, length, find, position, IfSome, option_copied};
ghost use Rattle.txn_block.specs.Entries.{names, is_unused, is_rolled_back};
ghost use Rattle.txn_block.specs.Tables.{IsFirst, LeastBelow, TakesNext, lesser};

use crate::entry::{TableEntry, committed, is_rolled_back, is_unused, names};
use seg_base::{Scn, TxnId};

/// The entry that names a transaction.
pub fn named(entries: &[TableEntry], txn: TxnId) -> Option<&TableEntry>
    ensures { option_copied result ≡ find (names txn) entries.now }
{
    entries.iter().find(|entry| names(entry, txn))
}

/// The place of the entry that names a transaction.
pub fn place_named(entries: &[TableEntry], txn: TxnId) -> Option<usize>
    ensures { result ≡ position (names txn) entries.now }
{
    entries.iter().position(|entry| names(entry, txn))
}

/// The least unused entry.
fn first_unused(entries: &[TableEntry]) -> Option<usize>
    ensures { IsFirst is_unused entries.now result }
{
    for (place, entry) in entries.iter().enumerate() {
        if is_unused(entry) {
            return Some(place);
        }
    }
    None
}

/// The least entry of a rolled-back transaction.
fn first_rolled_back(entries: &[TableEntry]) -> Option<usize>
    ensures { IsFirst is_rolled_back entries.now result }
{
    for (place, entry) in entries.iter().enumerate() {
        if is_rolled_back(entry) {
            return Some(place);
        }
    }
    None
}

/// The lesser of two commit numbers, each with its place; of equal ones the first.
fn lesser(best: Option<(usize, Scn)>, place: usize, number: Option<Scn>) -> Option<(usize, Scn)>
    ensures { result ≡ lesser best place number }
{
    match number {
        None => best,
        Some(number) => match best {
            None => Some((place, number)),
            Some(best) => {
                if best.1.0 <= number.0 {
                    Some(best)
                } else {
                    Some((place, number))
                }
            }
        },
    }
}

/// The committed entry with the least commit number.
fn least_committed(entries: &[TableEntry]) -> Option<(usize, Scn)>
    ensures { LeastBelow entries.now (length entries.now) result }
{
    let mut best = None;
    for (place, entry) in entries.iter().enumerate() {
        best = lesser(best, place, committed(entry));
    }
    best
}

/// The entry that is used next, and the control number after it.
pub fn next(entries: &[TableEntry], control: Scn) -> Option<(usize, Scn)>
    ensures next { TakesNext entries.now control result }
    ensures within { IfSome result (λ x. x.0 < length entries.now) }
{
    if let Some(place) = first_unused(entries) {
        return Some((place, control));
    }
    if let Some(place) = first_rolled_back(entries) {
        return Some((place, control));
    }
    least_committed(entries)
}
