// The transaction list of a block, 2 to 8 entries that take no memory.
ghost use Rattle.std.specs.Prelude.{◌≡◌, ◌<◌, ◌≤◌, ◌∷◌, ◌++◌, [], length, map, set, cond, ltb, Some, None};
ghost use Rattle.seg_words.specs.Types.{position_or_len, new_entry, put, clean_entry, names, is_spare};

use crate::clean::clean_entries;
use seg_base::{Ended, LEAST_LIST_ENTRIES, ListEntry, MOST_LIST_ENTRIES, Scn, TxnId};
use std::marker::Model;

const MOST: usize = MOST_LIST_ENTRIES as usize;

const NONE: ListEntry = ListEntry {
    txn: TxnId(0),
    number: Scn(0),
};

#[derive(Debug, Drop)]
pub struct Entries {
    all: [ListEntry; MOST],
    count: usize,
}

impl Model for Entries {
    ghost use Rattle.std.specs.Prelude.{List, ◌≤◌, take};
    ghost use Rattle.seg_words.specs.Types.{ListEntry, MOST_LIST_ENTRIES};

    ghost Value = { List ListEntry };

    ghost view = { λ e. take e.count e.all };

    ghost invariant = { λ e. e.count ≤ MOST_LIST_ENTRIES };
}

impl Entries {
    /// As a block is formatted: two entries that name none.
    pub fn new() -> Entries
        ensures { result ≡ new_entry ∷ new_entry ∷ [] }
    {
        Entries {
            all: [NONE; MOST],
            count: LEAST_LIST_ENTRIES as usize,
        }
    }

    /// The entries of a list.
    pub fn copy(entries: &[ListEntry]) -> Entries
        requires { length entries.now ≤ MOST_LIST_ENTRIES }
        ensures { result ≡ entries.now }
    {
        let mut all = [NONE; MOST];
        all[..entries.len()].copy_from_slice(entries);
        Entries {
            all,
            count: entries.len(),
        }
    }

    pub fn len(&self) -> usize
        ensures count { result ≡ length self.now }
        ensures most { result ≤ MOST_LIST_ENTRIES }
    {
        self.all[..self.count].len()
    }

    pub fn as_slice(&self) -> &[ListEntry]
        ensures { result.now ≡ self.now }
    {
        &self.all[..self.count]
    }

    /// Puts an entry in its place, or behind the last one.
    #[tactic(auto, using(seg_base::proofs::Puts::put_set, seg_base::proofs::Puts::put_push))]
    pub fn put(&mut self, at: usize, entry: ListEntry)
        requires place { at ≤ length self.old }
        requires most { at < MOST_LIST_ENTRIES }
        ensures { self.new ≡ put new_entry self.old at entry }
    {
        if at < self.len() {
            self.set(at, entry);
        } else {
            self.push(entry);
        }
    }

    fn set(&mut self, at: usize, entry: ListEntry)
        requires { at < length self.old }
        ensures { self.new ≡ set self.old at entry }
    {
        let used = self.len();
        prove!(at < used);
        self.all[at] = entry;
    }

    fn push(&mut self, entry: ListEntry)
        requires { length self.old < MOST_LIST_ENTRIES }
        ensures { self.new ≡ self.old ++ entry ∷ [] }
    {
        self.all[self.count] = entry;
        self.count += 1;
    }

    /// The place of the transaction's own entry.
    pub fn own(&self, txn: TxnId) -> Option<usize>
        ensures { result ≡ cond (ltb (position_or_len (names txn) self.now) (length self.now)) (Some (position_or_len (names txn) self.now)) None }
    {
        self.as_slice().iter().position(|e| e.txn == txn)
    }

    /// The least place that is empty or names an ended transaction.
    pub fn spare<E: Ended>(&self, ended: &E) -> Option<usize>
        ensures { result ≡ cond (ltb (position_or_len (is_spare (E.has_ended ended.now)) self.now) (length self.now)) (Some (position_or_len (is_spare (E.has_ended ended.now)) self.now)) None }
    {
        self.as_slice()
            .iter()
            .position(|e| e.txn == TxnId(0) || ended.ended(e.txn))
    }

    pub fn clean(&mut self, done: &[(TxnId, Scn)])
        ensures { self.new ≡ map (clean_entry done.now) self.old }
    {
        clean_entries(&mut self.all[..self.count], done);
    }

    pub fn duplicate(&self) -> Entries
        ensures { result ≡ self.now }
    {
        let mut all = [NONE; MOST];
        all.copy_from_slice(&self.all);
        Entries {
            all,
            count: self.count,
        }
    }
}
