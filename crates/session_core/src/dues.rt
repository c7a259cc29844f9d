// What a session is to settle.
ghost use Rattle.std.specs.Prelude.{◌≡◌, None, List, OnOk, OnErr, []};
ghost use Rattle.redo_model.specs.Records.{Record};
ghost use Rattle.store_core.specs.Store.{IsTrue};
ghost use Rattle.session_core.specs.Acting.{HasCalled};
ghost use Rattle.session_core.specs.Dues.{LosesNone, all_owed, noted_after, of_table, table_of, with_block, with_blocks};
ghost use Rattle.session_core.specs.Owing.{HasSettledFirst, is_none_owed};

use crate::changed::Changed;
use crate::owed::{Owed, move_all};
use crate::settling::settle_owed;
use disk_model::Disk;
use seg_base::{Dba, NoMemory, Obj};
use std::alloc::Global;
use store_core::{Store, StoreFault};

/// What a session is to settle: the row blocks that are owed, and those that its open transaction changed.
#[derive(Drop)]
pub struct Dues {
    owed: Owed,
    noted: Owed,
}

impl Dues {
    pub fn new(alloc: Global) -> Dues
        ensures { result ≡ record { owed = []; noted = [] } }
    {
        Dues {
            owed: Owed::new(alloc),
            noted: Owed::new(alloc),
        }
    }

    /// Whether no block is owed.
    pub fn is_empty(&self) -> bool
        ensures { result ≡ is_none_owed self.now.owed }
    {
        self.owed.is_empty()
    }

    /// A block of this table is owed, and stays noted.
    fn note_of(&mut self, obj: Obj, dba: Dba) -> Result<(), NoMemory>
        ensures ok { OnOk result (self.new ≡ of_table self.old dba obj) }
        ensures err { OnErr result (LosesNone self.old self.new) }
    {
        self.owed.push(obj, dba)?;
        self.noted.push(obj, dba)
    }

    /// The table of a block: the one that is told, else the one that the block was noted with.
    fn table_of(&self, obj: &Option<Obj>, dba: Dba) -> Option<Obj>
        ensures { result ≡ table_of self.now obj.now dba }
    {
        match obj {
            Some(obj) => Some(*obj),
            None => self.noted.table_of(dba),
        }
    }

    /// A changed block, if there is one, is owed and stays noted.
    fn note_block(&mut self, obj: &Option<Obj>, dba: Option<Dba>) -> Result<(), NoMemory>
        ensures ok { OnOk result (self.new ≡ with_block obj.now self.old dba) }
        ensures err { OnErr result (LosesNone self.old self.new) }
    {
        let Some(dba) = dba else {
            return Ok(());
        };
        match self.table_of(obj, dba) {
            Some(obj) => self.note_of(obj, dba),
            None => Ok(()),
        }
    }

    /// The changed blocks are owed and stay noted.
    fn note_blocks(&mut self, changed: &Changed) -> Result<(), NoMemory>
        ensures ok { OnOk result (self.new ≡ with_blocks changed.now self.old) }
        ensures err { OnErr result (LosesNone self.old self.new) }
    {
        self.note_block(&changed.obj, changed.first)?;
        self.note_block(&changed.obj, changed.second)?;
        self.note_block(&changed.obj, changed.third)
    }

    /// All that were noted are owed, and none stays noted.
    fn owe_noted(&mut self) -> Result<(), NoMemory>
        ensures ok { OnOk result (self.new ≡ all_owed self.old) }
        ensures err { OnErr result (LosesNone self.old self.new) }
    {
        move_all(&mut self.noted, &mut self.owed)
    }

    /// After an event: the blocks that it changed are owed, and stay noted while the session has an open transaction; where it has
    /// none, all that were noted are owed. Where the event tells no table it is the one with which the block was noted, as for a
    /// change that is taken back. Without memory no block is lost that was owed or noted.
    pub fn note(&mut self, changed: &Changed, active: bool) -> Result<(), NoMemory>
        ensures ok { OnOk result (self.new ≡ noted_after changed.now active self.old) }
        ensures err { OnErr result (LosesNone self.old self.new) }
    {
        self.note_blocks(changed)?;
        if active {
            return Ok(());
        }
        self.owe_noted()
    }

    /// Settles the first owed block that calls for it, and answers whether there was one. Those before it are owed no more, it and
    /// those after it stay owed, and what is noted stays.
    pub fn settle<D: Disk>(
        &mut self,
        alloc: Global,
        store: &mut Store<D>,
    ) -> Result<bool, StoreFault>
        requires unspent { store.old.fault ≡ None }
        ensures settled { (R : List Record) → IsTrue D.meaning R store.old → HasSettledFirst D.meaning R self.old.owed self.new.owed store.old store.new result }
        ensures noted { self.new.noted ≡ self.old.noted }
        ensures called { HasCalled D.meaning store.old store.new result }
    {
        settle_owed(alloc, store, &mut self.owed)
    }
}
