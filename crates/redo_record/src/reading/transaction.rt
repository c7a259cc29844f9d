// Records that begin and end transactions, and what goes with them.
ghost use Rattle.std.specs.Prelude.{◌≡◌, IfOk, length};
ghost use Rattle.redo_record.specs.Forms.{Reads, ReadsItems, many};
ghost use Rattle.redo_record.specs.Reading.{begin_at, reuse_at, commit_at, ended_at, ended_transaction_at, ended_transactions_at, clean_at};

use crate::fault::ReadFault;
use crate::input::Input;
use crate::transaction::{
    BeginRecord, CleanRecord, CommitRecord, EndedRecord, EndedTransactions, ReuseRecord,
};
use seg_base::{Scn, TxnId};
use std::alloc::Global;

#[tactic(auto, unfolding(crate::specs::Reading::begin_at))]
pub fn begin(input: &mut Input) -> Result<BeginRecord, ReadFault>
    ensures { Reads result input.new (begin_at input.old) }
{
    Ok(BeginRecord {
        txn: TxnId(input.u64()?),
        session: input.byte()?,
        entry: input.byte()?,
        control: Scn(input.u64()?),
    })
}

#[tactic(auto, unfolding(crate::specs::Reading::reuse_at))]
pub fn reuse(input: &mut Input) -> Result<ReuseRecord, ReadFault>
    ensures { Reads result input.new (reuse_at input.old) }
{
    Ok(ReuseRecord {
        block: input.u32()?,
        sequence: input.u64()?,
    })
}

#[tactic(auto, unfolding(crate::specs::Reading::commit_at))]
pub fn commit(input: &mut Input) -> Result<CommitRecord, ReadFault>
    ensures { Reads result input.new (commit_at input.old) }
{
    Ok(CommitRecord {
        txn: TxnId(input.u64()?),
        number: Scn(input.u64()?),
        entry: input.byte()?,
    })
}

#[tactic(auto, unfolding(crate::specs::Reading::ended_at))]
pub fn ended(input: &mut Input) -> Result<EndedRecord, ReadFault>
    ensures { Reads result input.new (ended_at input.old) }
{
    Ok(EndedRecord {
        txn: TxnId(input.u64()?),
        entry: input.byte()?,
    })
}

#[tactic(auto, unfolding(crate::specs::Reading::ended_transaction_at))]
fn ended_transaction(input: &mut Input) -> Result<(TxnId, Scn), ReadFault>
    ensures { Reads result input.new (ended_transaction_at input.old) }
{
    let txn = TxnId(input.u64()?);
    let number = Scn(input.u64()?);
    Ok((txn, number))
}

fn ended_transactions_of(
    alloc: Global,
    count: u8,
    input: &mut Input,
) -> Result<Vec<(TxnId, Scn)>, ReadFault>
    ensures read { ReadsItems result input.new (many ended_transaction_at count input.old) }
    ensures long { IfOk result (λ v. length v.items ≡ count) }
{
    let mut ended = Vec::new(alloc);
    for _ in 0..count {
        ended.push(ended_transaction(input)?)?;
    }
    Ok(ended)
}

#[tactic(auto, unfolding(crate::specs::Reading::ended_transactions_at))]
fn ended_transactions(alloc: Global, input: &mut Input) -> Result<EndedTransactions, ReadFault>
    ensures { Reads result input.new (ended_transactions_at input.old) }
{
    let count = input.byte()?;
    let ended = ended_transactions_of(alloc, count, input)?;
    Ok(EndedTransactions::from_vec(ended))
}

#[tactic(auto, unfolding(crate::specs::Reading::clean_at))]
pub fn clean(alloc: Global, input: &mut Input) -> Result<CleanRecord, ReadFault>
    ensures { Reads result input.new (clean_at input.old) }
{
    Ok(CleanRecord {
        dba: input.dba()?,
        ended: ended_transactions(alloc, input)?,
    })
}
