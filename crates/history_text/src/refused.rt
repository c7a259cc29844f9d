// The text of a refusal.
ghost use Rattle.std.specs.Prelude.{◌≡◌, ◌++◌, OnOk, codes, decimal};
ghost use Rattle.history_text.specs.Refusals.{numbers_text, holders_text, holder_text, gone_text, address_text, undo_text, refusal_text, refused_text};

use crate::refusal::Refusal;
use seg_base::{Dba, NoMemory, Scn, TxnId, UndoAddr};
use text_port::{put, put_number};

/// Adds a number behind a text.
fn put_numbered(out: &mut Vec<u8>, text: &[u8], number: u64) -> Result<(), NoMemory>
    ensures { OnOk result (out.new.items ≡ out.old.items ++ (text.now ++ decimal number)) }
{
    put(out, text)?;
    put_number(out, number)
}

fn put_named(out: &mut Vec<u8>, text: &[u8], name: &[u8]) -> Result<(), NoMemory>
    ensures { OnOk result (out.new.items ≡ out.old.items ++ (text.now ++ name.now)) }
{
    put(out, text)?;
    put(out, name)
}

fn put_commits(out: &mut Vec<u8>, commits: &[Scn]) -> Result<(), NoMemory>
    ensures { OnOk result (out.new.items ≡ out.old.items ++ numbers_text commits.now) }
{
    for commit in commits {
        put_numbered(out, b" ", commit.0)?;
    }
    Ok(())
}

fn put_txns(out: &mut Vec<u8>, txns: &[TxnId]) -> Result<(), NoMemory>
    ensures { OnOk result (out.new.items ≡ out.old.items ++ numbers_text txns.now) }
{
    for txn in txns {
        put_numbered(out, b" ", txn.0)?;
    }
    Ok(())
}

fn put_holder(out: &mut Vec<u8>, block: Dba, txn: TxnId) -> Result<(), NoMemory>
    ensures { OnOk result (out.new.items ≡ out.old.items ++ holder_text block txn) }
{
    put_numbered(out, b" ", u64::from(block.0))?;
    put_numbered(out, b"=", txn.0)
}

fn put_holders(out: &mut Vec<u8>, holders: &[(Dba, TxnId)]) -> Result<(), NoMemory>
    ensures { OnOk result (out.new.items ≡ out.old.items ++ holders_text holders.now) }
{
    for (block, txn) in holders {
        put_holder(out, *block, *txn)?;
    }
    Ok(())
}

#[tactic(auto, unfolding(crate::specs::Refusals::gone_text))]
fn put_gone(out: &mut Vec<u8>, extent: u32, lowering: u64) -> Result<(), NoMemory>
    ensures { OnOk result (out.new.items ≡ out.old.items ++ gone_text extent lowering) }
{
    put_numbered(out, b"object no longer exists extent ", u64::from(extent))?;
    put_numbered(out, b" lowering ", lowering)
}

/// Adds an undo address.
#[tactic(auto, unfolding(crate::specs::Refusals::address_text))]
fn put_address(out: &mut Vec<u8>, at: UndoAddr) -> Result<(), NoMemory>
    ensures { OnOk result (out.new.items ≡ out.old.items ++ address_text at) }
{
    put_number(out, u64::from(at.block))?;
    put(out, b".")?;
    put_number(out, at.seq)?;
    put(out, b".")?;
    put_number(out, u64::from(at.nth))
}

fn put_undo(out: &mut Vec<u8>, at: UndoAddr) -> Result<(), NoMemory>
    ensures { OnOk result (out.new.items ≡ out.old.items ++ undo_text at) }
{
    put(out, b"snapshot too old undo ")?;
    put_address(out, at)
}

#[tactic(auto, unfolding(crate::specs::Refusals::refusal_text))]
fn put_text(out: &mut Vec<u8>, refusal: &Refusal) -> Result<(), NoMemory>
    ensures { OnOk result (out.new.items ≡ out.old.items ++ refusal_text refusal.now) }
{
    match refusal {
        Refusal::NoTable => put(out, b"no table"),
        Refusal::TableExists => put(out, b"table exists"),
        Refusal::TooManyTables => put(out, b"too many tables"),
        Refusal::MovementOff => put(out, b"movement off"),
        Refusal::TransactionOpen => put(out, b"transaction open"),
        Refusal::ShrinkBusy { session } => {
            put_numbered(out, b"shrink busy ", u64::from(*session))
        }
        Refusal::LogFull => put(out, b"log full"),
        Refusal::NotDataBlock { block } => {
            put_numbered(out, b"not a data block ", u64::from(block.0))
        }
        Refusal::BadValue { value } => put_numbered(out, b"bad value ", u64::from(*value)),
        Refusal::Unbound { label } => put_named(out, b"unbound ", label.as_slice()),
        Refusal::NoRow { row } => put_numbered(out, b"no row ", row.0),
        Refusal::Busy { txn } => put_numbered(out, b"busy ", txn.0),
        Refusal::Again { commits } => {
            put(out, b"again")?;
            put_commits(out, commits.as_slice())
        }
        Refusal::NoSlot { txns } => {
            put(out, b"no slot")?;
            put_txns(out, txns.as_slice())
        }
        Refusal::NoSpace { need } => put_numbered(out, b"no space ", u64::from(*need)),
        Refusal::MaxExtents { count } => put_numbered(out, b"max extents ", u64::from(*count)),
        Refusal::UndoFull { holders } => {
            put(out, b"undo full")?;
            put_holders(out, holders.as_slice())
        }
        Refusal::ObjectGone { extent, lowering } => put_gone(out, *extent, *lowering),
        Refusal::TooOld { at } => put_undo(out, *at),
        Refusal::TooOldEntry { txn } => {
            put_numbered(out, b"snapshot too old transaction ", txn.0)
        }
        Refusal::NeedsBlock { len } => put_numbered(out, b"needs block ", u64::from(*len)),
    }
}

/// Adds the line of a refusal.
pub fn put_refusal(out: &mut Vec<u8>, refusal: &Refusal) -> Result<(), NoMemory>
    ensures { OnOk result (out.new.items ≡ out.old.items ++ refused_text refusal.now) }
{
    put(out, b"refused ")?;
    put_text(out, refusal)?;
    put(out, b"\n")
}
