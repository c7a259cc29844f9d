// Ended transactions are taken out of slots and list entries.
ghost use Rattle.std.specs.Prelude.{◌≡◌, ◌≤◌, length, map, All};
ghost use Rattle.seg_words.specs.Types.{number_of, number_of_writer, clean_slot, clean_entry};

use seg_base::{ListEntry, Scn, Slot, TxnId, Writer};

/// The number that the clean is told of a transaction.
fn number_of(done: &[(TxnId, Scn)], txn: TxnId) -> Option<Scn>
    ensures { result ≡ number_of done.now txn }
{
    match done {
        [] => None,
        [first, rest @ ..] => {
            if first.0 == txn {
                Some(first.1)
            } else {
                number_of(rest, txn)
            }
        }
    }
}

fn number_of_writer(writer: &Writer, done: &[(TxnId, Scn)]) -> Option<Scn>
    ensures { result ≡ number_of_writer done.now writer.now }
{
    match writer {
        Writer::By(txn) => number_of(done, *txn),
        Writer::At(_) => None,
    }
}

fn clean_slot(slot: &mut Slot, done: &[(TxnId, Scn)])
    requires { length slot.old.bytes ≤ slot.old.room }
    ensures { slot.new ≡ clean_slot done.now slot.old }
{
    if let Some(number) = number_of_writer(&slot.writer, done) {
        let _room = slot.room;
        slot.room = slot.bytes.len() as u16;
        if number.0 > 0 {
            slot.writer = Writer::At(number);
        }
    }
}

fn clean_entry(entry: &mut ListEntry, done: &[(TxnId, Scn)])
    ensures { entry.new ≡ clean_entry done.now entry.old }
{
    if number_of(done, entry.txn).is_some() {
        *entry = ListEntry {
            txn: TxnId(0),
            number: Scn(0),
        };
    }
}

pub fn clean_entries(entries: &mut [ListEntry], done: &[(TxnId, Scn)])
    ensures { entries.new ≡ map (clean_entry done.now) entries.old }
{
    for entry in entries {
        clean_entry(entry, done);
    }
}

fn clean_each(slots: &mut [Slot], done: &[(TxnId, Scn)])
    requires { All (λ s. length s.bytes ≤ s.room) slots.old }
    ensures { slots.new ≡ map (clean_slot done.now) slots.old }
{
    for slot in slots {
        clean_slot(slot, done);
    }
}

pub fn clean_slots(slots: &mut Vec<Slot>, done: &[(TxnId, Scn)])
    requires { All (λ s. length s.bytes ≤ s.room) slots.old.items }
    ensures { slots.new.items ≡ map (clean_slot done.now) slots.old.items }
{
    clean_each(slots.as_mut_slice(), done);
}
