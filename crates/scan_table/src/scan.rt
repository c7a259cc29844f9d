// One open scan.
ghost use Rattle.std.specs.Prelude.{◌≡◌, ◌<◌, ℕ, List, length, drop, None, IfErr, OnErr, OnOk, slice_get};
ghost use Rattle.history_model.specs.Released.{least_having};
ghost use Rattle.redo_model.specs.Records.{Record};
ghost use Rattle.history_laws.specs.Scans.{Sorts};
ghost use Rattle.version_read.specs.Walking.{txn_or_none};
ghost use Rattle.store_core.specs.Store.{IsTrue};
ghost use Rattle.store_core.specs.Causes.{HasLooked};
ghost use Rattle.scan_table.specs.Reading.{BlockAnswers, IsOfBlock, store_part};
ghost use Rattle.scan_table.specs.Standing.{Advances, HoldsScan, IsScanning, IsSettled, LeavesOff, ReadsOn, mark_with, marked_by, with_rows};

use crate::marking::least_having;
use crate::reader::Reader;
use crate::rows::Rows;
use crate::slots::read_block;
use crate::{ScanFault, ScanStep, Scanned};
use disk_model::Disk;
use seg_base::{Dba, NoMemory, Obj, Scn, Sequence, Shape, TxnId};
use std::alloc::Global;
use std::mem;
use store_core::{Lowered, Store, StoreFault};

/// What was released first that has a block which the scan had yet to read: an extent, and the lowering that released it.
#[derive(Clone, Copy, Debug, PartialEq, Eq, Drop)]
pub struct Gone {
    pub extent: u32,
    pub lowering: u64,
}

/// A scan between two events: its table, transaction and number; the blocks that it reads, how many of them it has read, their
/// rows as they were read; and what was released of the others.
#[derive(Drop)]
pub struct OpenScan {
    pub shape: Shape,
    pub obj: Obj,
    pub own: Option<TxnId>,
    pub at: Scn,
    pub blocks: Sequence<Dba>,
    pub read: usize,
    pub rows: Rows,
    pub mark: Option<Gone>,
}

impl OpenScan {
    /// The block that is read next, none where all were read.
    fn next_block(&self) -> Option<Dba>
        ensures next { result ≡ slice_get self.now.blocks self.now.read }
    {
        match self.blocks.as_slice().get(self.read) {
            None => None,
            Some(dba) => Some(*dba),
        }
    }

    /// The rows that a block gives.
    fn read_rows<D: Disk>(
        &self,
        alloc: Global,
        store: &mut Store<D>,
        dba: Dba,
    ) -> Result<Rows, ScanFault>
        requires { store.old.fault ≡ None }
        ensures looked { HasLooked D.meaning store.old store.new (store_part result) }
        ensures block { IfErr result IsOfBlock }
        ensures says { (R : List Record) (o : ℕ) → IsTrue D.meaning R store.old → IsScanning store.old.shape R o self.now dba → BlockAnswers R dba self.now.at (txn_or_none self.now.own) result }
    {
        let table = match store.copy_table(alloc) {
            Ok(table) => table,
            Err(fault) => return Err(ScanFault::Store(fault)),
        };
        let at = self.at;
        let reader = Reader {
            shape: self.shape,
            table,
            at,
            own: self.own,
        };
        read_block(alloc, store, dba, &reader)
    }

    /// Takes the rows of one block more.
    fn take_rows(&mut self, rows: Rows) -> Result<(), NoMemory>
        requires { self.old.read < length self.old.blocks }
        ensures ok { OnOk result (self.new ≡ with_rows self.old rows) }
        ensures err { OnErr result (self.new ≡ self.old) }
    {
        let count = self.blocks.as_slice().len();
        match self.rows.append(rows) {
            Ok(()) => {
                if self.read < count {
                    self.read += 1;
                }
                Ok(())
            }
            Err(_) => Err(NoMemory),
        }
    }

    /// Reads a block. A refusal leaves the scan as it was.
    fn read_on<D: Disk>(
        &mut self,
        alloc: Global,
        store: &mut Store<D>,
        dba: Dba,
    ) -> Result<(), ScanFault>
        requires unspent { store.old.fault ≡ None }
        requires within { self.old.read < length self.old.blocks }
        ensures looked { HasLooked D.meaning store.old store.new (store_part result) }
        ensures block { IfErr result IsOfBlock }
        ensures kept { OnErr result (self.new ≡ self.old) }
        ensures says { (R : List Record) (o : ℕ) → IsTrue D.meaning R store.old → IsScanning store.old.shape R o self.old dba → ReadsOn R self.old self.new dba result }
    {
        match self.read_rows(alloc, store, dba) {
            Err(fault) => Err(fault),
            Ok(rows) => match self.take_rows(rows) {
                Ok(()) => Ok(()),
                Err(_) => Err(ScanFault::Store(StoreFault::NoMemory)),
            },
        }
    }

    /// Hands out the rows, in order of row number.
    fn finish(&mut self, alloc: Global) -> Scanned
        ensures at { result.at ≡ self.old.at }
        ensures rows { Sorts self.old.rows result.rows }
    {
        let rows = mem::replace(&mut self.rows, Rows::new(alloc));
        Scanned {
            at: self.at,
            rows: rows.into_sorted(),
        }
    }

    /// What an event leads to that read what there was to read.
    pub fn outcome(&mut self, alloc: Global) -> ScanStep
        ensures { LeavesOff self.old self.new result }
    {
        if self.read < self.blocks.len() {
            return ScanStep::More;
        }
        ScanStep::Done(self.finish(alloc))
    }

    /// Reads the next block of a scan that isn't marked.
    fn go_on<D: Disk>(&mut self, alloc: Global, store: &mut Store<D>) -> Result<ScanStep, ScanFault>
        requires unspent { store.old.fault ≡ None }
        requires unmarked { self.old.mark ≡ None }
        ensures looked { HasLooked D.meaning store.old store.new (store_part result) }
        ensures settled { IsSettled self.old self.new result }
        ensures says { (B R : List Record) → IsTrue D.meaning R store.old → HoldsScan store.old.shape B R self.old → Advances B R self.old self.new result }
    {
        match self.next_block() {
            None => Ok(self.outcome(alloc)),
            Some(dba) => match self.read_on(alloc, store, dba) {
                Err(fault) => Err(fault),
                Ok(()) => Ok(self.outcome(alloc)),
            },
        }
    }

    /// One event: reads the next block, or refuses.
    pub fn advance<D: Disk>(
        &mut self,
        alloc: Global,
        store: &mut Store<D>,
    ) -> Result<ScanStep, ScanFault>
        requires { store.old.fault ≡ None }
        ensures looked { HasLooked D.meaning store.old store.new (store_part result) }
        ensures settled { IsSettled self.old self.new result }
        ensures says { (B R : List Record) → IsTrue D.meaning R store.old → HoldsScan store.old.shape B R self.old → Advances B R self.old self.new result }
    {
        match self.mark {
            None => self.go_on(alloc, store),
            Some(gone) => Err(ScanFault::Gone {
                extent: gone.extent,
                lowering: gone.lowering,
            }),
        }
    }

    /// What a lowering of the scan's table released that the scan has yet to read.
    fn gone_in(&self, gone: &Lowered) -> Option<Gone>
        ensures { result ≡ mark_with gone.now.number (least_having self.now.shape (drop self.now.read self.now.blocks) gone.now.released) }
    {
        let blocks = self.blocks.as_slice();
        if self.read > blocks.len() {
            return None;
        }
        let (_, unread) = blocks.split_at(self.read);
        match least_having(&self.shape, unread, gone.released.as_slice()) {
            None => None,
            Some(extent) => Some(Gone {
                extent,
                lowering: gone.number,
            }),
        }
    }

    /// Keeps what was released first of the blocks that the scan has yet to read.
    pub fn mark_by(&mut self, obj: Obj, gone: &Lowered)
        ensures { self.new ≡ marked_by obj gone.now self.old }
    {
        if self.mark.is_some() || self.obj.0 != obj.0 {
            return;
        }
        self.mark = self.gone_in(gone);
    }
}
