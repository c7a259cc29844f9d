// Records that begin and end transactions, and what goes with them.
ghost use Rattle.std.specs.Prelude.{◌≡◌, ◌∷◌, ◌++◌, length, flat_map};
ghost use Rattle.redo_record.specs.Adding.{Adds};
ghost use Rattle.redo_record.specs.Spelling.{begin, reuse, commit, ended, ended_transaction, clean};

use crate::output;
use crate::transaction::{BeginRecord, CleanRecord, CommitRecord, EndedRecord, ReuseRecord};
use seg_base::{NoMemory, Scn, TxnId};

pub fn begin(out: &mut Vec<u8>, rec: &BeginRecord) -> Result<(), NoMemory>
    ensures { Adds result out.old.items out.new.items (begin rec.now) }
{
    output::u64(out, rec.txn.0)?;
    output::byte(out, rec.session)?;
    output::byte(out, rec.entry)?;
    output::u64(out, rec.control.0)?;
    Ok(())
}

pub fn reuse(out: &mut Vec<u8>, rec: &ReuseRecord) -> Result<(), NoMemory>
    ensures { Adds result out.old.items out.new.items (reuse rec.now) }
{
    output::u32(out, rec.block)?;
    output::u64(out, rec.sequence)?;
    Ok(())
}

pub fn commit(out: &mut Vec<u8>, rec: &CommitRecord) -> Result<(), NoMemory>
    ensures { Adds result out.old.items out.new.items (commit rec.now) }
{
    output::u64(out, rec.txn.0)?;
    output::u64(out, rec.number.0)?;
    output::byte(out, rec.entry)?;
    Ok(())
}

pub fn ended(out: &mut Vec<u8>, rec: &EndedRecord) -> Result<(), NoMemory>
    ensures { Adds result out.old.items out.new.items (ended rec.now) }
{
    output::u64(out, rec.txn.0)?;
    output::byte(out, rec.entry)?;
    Ok(())
}

fn ended_transaction(out: &mut Vec<u8>, txn: TxnId, number: Scn) -> Result<(), NoMemory>
    ensures { Adds result out.old.items out.new.items (ended_transaction (txn, number)) }
{
    output::u64(out, txn.0)?;
    output::u64(out, number.0)?;
    Ok(())
}

fn each_ended(out: &mut Vec<u8>, ended: &[(TxnId, Scn)]) -> Result<(), NoMemory>
    ensures { Adds result out.old.items out.new.items (flat_map ended_transaction ended.now) }
{
    for txn in ended {
        ended_transaction(out, txn.0, txn.1)?;
    }
    Ok(())
}

pub fn clean(out: &mut Vec<u8>, rec: &CleanRecord) -> Result<(), NoMemory>
    ensures { Adds result out.old.items out.new.items (clean rec.now) }
{
    let ended = rec.ended.as_slice();
    output::u32(out, rec.dba.0)?;
    output::byte(out, ended.len() as u8)?;
    each_ended(out, ended)?;
    Ok(())
}
