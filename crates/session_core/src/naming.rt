// Tables by their names.
ghost use Rattle.std.specs.Prelude.{◌≡◌, List, true, None, IfOk, IfErr};
ghost use Rattle.redo_model.specs.Records.{Record};
ghost use Rattle.store_core.specs.Causes.{HasLooked, IsSoundFault};
ghost use Rattle.store_core.specs.Store.{HasList, IsTrue};
ghost use Rattle.session_core.specs.Starting.{IsFullAt, Names, named_in};

use disk_model::Disk;
use history_model::NEW_WORK_RECORDS;
use page_set::Page;
use seg_base::{CATALOGUE_BLOCK, Dba, Name, NoMemory, Obj};
use std::alloc::Global;
use store_core::{Question, Store, StoreFault, ask};

const CATALOGUE: Dba = Dba(CATALOGUE_BLOCK);

/// The table with a name, and how many tables there are.
#[derive(Clone, Copy, Debug, PartialEq, Eq, Drop)]
pub struct Named {
    pub obj: Option<Obj>,
    pub tables: u8,
}

fn named_in(page: &Page, name: &Name) -> Option<Named>
    ensures { result ≡ named_in page.now name.now }
{
    match page {
        Page::Zero(_) => Some(Named {
            obj: None,
            tables: 0,
        }),
        Page::Catalogue(tables) => Some(Named {
            obj: tables.table(name),
            tables: tables.tables(),
        }),
        _ => None,
    }
}

/// Asks the catalogue for a name.
#[derive(Clone, Copy)]
struct NameIn<'n> {
    name: &'n Name,
}

impl<'n> Question for NameIn<'n> {
    ghost use Rattle.session_core.specs.Starting.{named_in};

    type Answer = Named;

    ghost reads = { λ q page. named_in page q.name.now };

    fn read(&self, alloc: Global, page: &Page) -> Result<Option<Named>, NoMemory> {
        let _ = alloc;
        Ok(named_in(page, self.name))
    }
}

/// What the catalogue says of a name.
pub fn find_named<D: Disk>(
    alloc: Global,
    store: &mut Store<D>,
    name: &Name,
) -> Result<Named, StoreFault>
    ensures looked { HasLooked D.meaning store.old store.new result }
    ensures says { (R : List Record) → IsTrue D.meaning R store.old → IfOk result (Names R name.now) }
    ensures sound { (R : List Record) → IsTrue D.meaning R store.old → store.old.fault ≡ None → IfErr result IsSoundFault }
{
    match ask(alloc, store, CATALOGUE, &NameIn { name }) {
        Ok(named) => Ok(named),
        Err(fault) => Err(fault),
    }
}

/// Whether there are so many records that new work is refused.
pub fn is_log_full<D: Disk>(store: &Store<D>) -> bool
    ensures { (R : List Record) → HasList D.meaning R store.now → IsFullAt R result }
{
    store.log_len() >= NEW_WORK_RECORDS
}
