// The transactions that a row block names and that have ended, in rising number, each once with its commit number.
ghost use Rattle.std.specs.Prelude.{◌≡◌, ◌≤◌, ◌<◌, ◌+◌, length, option_copied, slice_get, slice_index_or, OnOk, IfOk};
ghost use Rattle.seg_words.specs.Types.{MOST_LIST_ENTRIES, MOST_SLOTS, new_entry, new_slot};
ghost use Rattle.version_laws.specs.Types.{ended_by};
ghost use Rattle.usage_laws.specs.Types.{ended_named as named_in, insert_number as with_number, is_known, is_over as is_over_in, names_known as known_in, stated_by, with_named, with_writer, with_slots, with_entries};
ghost use Rattle.space_usage.specs.Named.{has_number, place_for};

use redo_record::EndedTransactions;
use row_block::RowBlock;
use seg_base::{Ended, NoMemory, Scn, TxnId, Writer};
use std::alloc::Global;
use txn_block::{State, TxnBlock};
use version_read::{EndedIn, state_of};

/// The commit number of a transaction that committed and isn't forgotten, else 0.
fn stated_by(table: &TxnBlock, txn: TxnId) -> Scn
    ensures { result ≡ stated_by table.now txn }
{
    match state_of(table, txn) {
        State::Committed(number) => number,
        State::Active | State::RolledBack | State::Forgotten => Scn(0),
    }
}

/// Whether it is a transaction that has ended: an empty list entry names none.
fn is_over(table: &TxnBlock, txn: TxnId) -> bool
    ensures { result ≡ is_over_in (ended_by table.now) txn }
{
    txn.0 != 0 && EndedIn::of(table).ended(txn)
}

fn is_known(table: &TxnBlock, writer: &Writer) -> bool
    ensures { result ≡ is_known (stated_by table.now) writer.now }
{
    match writer {
        Writer::By(txn) => stated_by(table, *txn).0 > 0,
        Writer::At(_) => false,
    }
}

fn is_known_at(table: &TxnBlock, block: &RowBlock, n: u8) -> bool
    requires { n < length block.now.block.slots }
    ensures { result ≡ is_known (stated_by table.now) (slice_index_or block.now.block.slots n new_slot).writer }
{
    match block.slot(n) {
        Some(slot) => is_known(table, &slot.writer),
        None => false,
    }
}

/// Whether a slot names a transaction that committed and isn't forgotten.
pub fn names_known(table: &TxnBlock, block: &RowBlock) -> bool
    ensures { result ≡ known_in (stated_by table.now) block.now.block.slots }
{
    for n in 0..block.slots() {
        if is_known_at(table, block, n) {
            return true;
        }
    }
    false
}

/// How many transactions stand in front of those from this number on.
fn place_for(done: &[(TxnId, Scn)], txn: TxnId) -> usize
    ensures value { result ≡ place_for txn done.now }
    ensures most { result ≤ length done.now }
{
    match done {
        [] => 0,
        [first, rest @ ..] => {
            if first.0.0 < txn.0 {
                1 + place_for(rest, txn)
            } else {
                0
            }
        }
    }
}

fn has_number(found: Option<&(TxnId, Scn)>, txn: TxnId) -> bool
    ensures { result ≡ has_number txn (option_copied found.entry) }
{
    match found {
        Some(named) => named.0.0 == txn.0,
        None => false,
    }
}

fn is_number_at(done: &[(TxnId, Scn)], at: usize, txn: TxnId) -> bool
    ensures { result ≡ has_number txn (slice_get done.now at) }
{
    has_number(done.get(at), txn)
}

/// Puts a transaction among those of other numbers, or in the place of its own.
fn insert_number(done: &mut Vec<(TxnId, Scn)>, txn: TxnId, number: Scn) -> Result<(), NoMemory>
    ensures { OnOk result (done.new.items ≡ with_number txn number done.old.items) }
{
    let at = place_for(done.as_slice(), txn);
    if is_number_at(done.as_slice(), at, txn) {
        done[at] = (txn, number);
        return Ok(());
    }
    match done.insert(at, (txn, number)) {
        Ok(()) => Ok(()),
        Err(_) => Err(NoMemory),
    }
}

fn add_named(done: &mut Vec<(TxnId, Scn)>, table: &TxnBlock, txn: TxnId) -> Result<(), NoMemory>
    ensures { OnOk result (done.new.items ≡ with_named (ended_by table.now) (stated_by table.now) txn done.old.items) }
{
    if !is_over(table, txn) {
        return Ok(());
    }
    insert_number(done, txn, stated_by(table, txn))
}

fn add_writer(
    done: &mut Vec<(TxnId, Scn)>,
    table: &TxnBlock,
    writer: &Writer,
) -> Result<(), NoMemory>
    ensures { OnOk result (done.new.items ≡ with_writer (ended_by table.now) (stated_by table.now) writer.now done.old.items) }
{
    match writer {
        Writer::By(txn) => add_named(done, table, *txn),
        Writer::At(_) => Ok(()),
    }
}

fn add_slot(
    done: &mut Vec<(TxnId, Scn)>,
    table: &TxnBlock,
    block: &RowBlock,
    n: u8,
) -> Result<(), NoMemory>
    requires { n < length block.now.block.slots }
    ensures { OnOk result (done.new.items ≡ with_writer (ended_by table.now) (stated_by table.now) (slice_index_or block.now.block.slots n new_slot).writer done.old.items) }
{
    match block.slot(n) {
        Some(slot) => add_writer(done, table, &slot.writer),
        None => Ok(()),
    }
}

fn add_slots(
    done: &mut Vec<(TxnId, Scn)>,
    table: &TxnBlock,
    block: &RowBlock,
) -> Result<(), NoMemory>
    ensures { OnOk result (done.new.items ≡ with_slots (ended_by table.now) (stated_by table.now) block.now.block.slots done.old.items) }
{
    for n in 0..block.slots() {
        match add_slot(done, table, block, n) {
            Ok(()) => {}
            Err(fault) => return Err(fault),
        }
    }
    Ok(())
}

fn add_entry(
    done: &mut Vec<(TxnId, Scn)>,
    table: &TxnBlock,
    block: &RowBlock,
    i: u8,
) -> Result<(), NoMemory>
    requires { i < length block.now.block.entries }
    ensures { OnOk result (done.new.items ≡ with_named (ended_by table.now) (stated_by table.now) (slice_index_or block.now.block.entries i new_entry).txn done.old.items) }
{
    match block.entry(i) {
        Some((txn, _)) => add_named(done, table, txn),
        None => Ok(()),
    }
}

fn add_entries(
    done: &mut Vec<(TxnId, Scn)>,
    table: &TxnBlock,
    block: &RowBlock,
) -> Result<(), NoMemory>
    ensures { OnOk result (done.new.items ≡ with_entries (ended_by table.now) (stated_by table.now) block.now.block.entries done.old.items) }
{
    for i in 0..block.entries() {
        match add_entry(done, table, block, i) {
            Ok(()) => {}
            Err(fault) => return Err(fault),
        }
    }
    Ok(())
}

fn few_named(table: &TxnBlock, block: &RowBlock)
    ensures { length (named_in (ended_by table.now) (stated_by table.now) block.now.block) ≤ MOST_SLOTS + MOST_LIST_ENTRIES }
{
    let _ = table;
    let _slots = block.slots();
    let _entries = block.entries();
}

/// The ended transactions that slots or list entries of a row block name.
pub fn ended_named(
    alloc: Global,
    table: &TxnBlock,
    block: &RowBlock,
) -> Result<EndedTransactions, NoMemory>
    ensures { IfOk result (λ ended. ended ≡ named_in (ended_by table.now) (stated_by table.now) block.now.block) }
{
    let mut done = Vec::new(alloc);
    match add_slots(&mut done, table, block) {
        Ok(()) => {}
        Err(fault) => return Err(fault),
    }
    match add_entries(&mut done, table, block) {
        Ok(()) => {}
        Err(fault) => return Err(fault),
    }
    few_named(table, block);
    Ok(EndedTransactions::from_vec(done))
}
