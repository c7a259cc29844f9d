// The events of a scan.
ghost use Rattle.std.specs.Prelude.{◌≡◌, ◌≢◌, ◌≤◌, ℕ, List, Option, Some, None, IsSome, IfOk, OnErr, false};
ghost use Rattle.seg_words.specs.Types.{MOST_SESSIONS};
ghost use Rattle.redo_model.specs.Model.{table_named};
ghost use Rattle.session_laws.specs.Sessions.{own_backed};
ghost use Rattle.script_text.specs.declared.statement.Statement.TheVariants as asked;
ghost use Rattle.history_model.specs.Spans.{Span};
ghost use Rattle.session_model.specs.Worlds.{IsReady};
ghost use Rattle.scan_table.specs.Places.{place};
ghost use Rattle.session_core.specs.Acting.{HasCalled, IsAt, IsStarting};
ghost use Rattle.session_core.specs.Scanned.{HasActedAt, IsKept, IsShaped, doing_at, failed, stepped, stopped};

use crate::naming::find_named;
use crate::session::Doing;
use crate::turned::{Acted, Turned, over, refused};
use disk_model::Disk;
use history_model::Kept;
use history_text::{Outcome, Refusal};
use scan_table::{ScanFault, ScanStep, Scanned, Scans};
use seg_base::{MOST_SESSIONS, Name, Obj, TxnId};
use std::alloc::Global;
use store_core::{Store, StoreFault};

fn stopped(refusal: Refusal, read: usize, own: Option<TxnId>) -> Acted
    ensures { result ≡ stopped refusal read own }
{
    Acted {
        turned: Turned::Over {
            outcome: Outcome::Refused(refusal),
            kept: Kept::Read { blocks: read },
        },
        own,
    }
}

/// A scan that had read so many blocks is refused, or the store failed.
fn failed(fault: &ScanFault, read: usize, own: Option<TxnId>) -> Result<Acted, StoreFault>
    ensures { result ≡ failed fault.now read own }
{
    match fault {
        ScanFault::TooOld { at } => Ok(stopped(Refusal::TooOld { at: *at }, read, own)),
        ScanFault::TooOldEntry { txn } => {
            let txn = TxnId(txn.0);
            Ok(stopped(Refusal::TooOldEntry { txn }, read, own))
        }
        ScanFault::Gone { extent, lowering } => {
            let refusal = Refusal::ObjectGone {
                extent: *extent,
                lowering: *lowering,
            };
            Ok(stopped(refusal, read, own))
        }
        ScanFault::Store(fault) => Err(*fault),
    }
}

fn with_rows(rows: Scanned, table: Name, own: Option<TxnId>) -> Acted
    ensures { result ≡ record { turned = Turned.Over (Outcome.Scan table rows.at rows.rows) Kept.Nothing; own = own } }
{
    let Scanned { at, rows } = rows;
    over(Outcome::Scan { table, at, rows }, own)
}

/// The scan goes on, or gives its rows.
fn stepped(step: ScanStep, table: Name, own: Option<TxnId>) -> Acted
    ensures { result ≡ stepped step table own }
{
    match step {
        ScanStep::More => Acted {
            turned: Turned::On(Doing::Scanning),
            own,
        },
        ScanStep::Done(rows) => with_rows(rows, table, own),
    }
}

fn same_txn(own: &Option<TxnId>) -> Option<TxnId>
    ensures { result ≡ own.now }
{
    match own {
        None => None,
        Some(txn) => Some(*txn),
    }
}

/// Opens the scan of a table of which the name was copied.
fn open_named<D: Disk>(
    scans: &mut Scans,
    store: &mut Store<D>,
    who: u8,
    own: Option<TxnId>,
    obj: Obj,
    table: Name,
) -> Result<Acted, StoreFault>
    requires least { 1 ≤ who }
    requires most { who ≤ MOST_SESSIONS }
    requires closed { place who scans.old ≡ None }
    requires unspent { store.old.fault ≡ None }
    ensures acted { (x : Span) → IsAt D.meaning x own store.old → IsStarting x → table_named x.begun table ≡ Some obj → HasActedAt D.meaning x (Some (asked.Scan table)) (place who scans.new) store.old store.new result }
    ensures called { HasCalled D.meaning store.old store.new result }
    ensures others { (v : ℕ) → 1 ≤ v → v ≢ who → place v scans.new ≡ place v scans.old }
    ensures kept { IfOk result (λ a. IsKept (place who scans.new) a.turned) }
    ensures same { OnErr result (place who scans.new ≡ None) }
{
    match scans.open(store, who, obj, same_txn(&own)) {
        Ok(step) => Ok(stepped(step, table, own)),
        Err(fault) => failed(&fault, 0, own),
    }
}

/// Opens the scan of a table.
fn open_scan<D: Disk>(
    alloc: Global,
    scans: &mut Scans,
    store: &mut Store<D>,
    who: u8,
    own: Option<TxnId>,
    obj: Obj,
    name: &Name,
) -> Result<Acted, StoreFault>
    requires least { 1 ≤ who }
    requires most { who ≤ MOST_SESSIONS }
    requires closed { place who scans.old ≡ None }
    requires unspent { store.old.fault ≡ None }
    ensures acted { (x : Span) → IsAt D.meaning x own store.old → IsStarting x → table_named x.begun name.now ≡ Some obj → HasActedAt D.meaning x (Some (asked.Scan name.now)) (place who scans.new) store.old store.new result }
    ensures called { HasCalled D.meaning store.old store.new result }
    ensures others { (v : ℕ) → 1 ≤ v → v ≢ who → place v scans.new ≡ place v scans.old }
    ensures kept { IfOk result (λ a. IsKept (place who scans.new) a.turned) }
    ensures same { OnErr result (place who scans.new ≡ None) }
{
    match name.duplicate(alloc) {
        Ok(table) => open_named(scans, store, who, own, obj, table),
        Err(_) => Err(StoreFault::NoMemory),
    }
}

/// The first event of a scan, of a session without an open one. Others' scans stay as they are.
pub fn start_scan<D: Disk>(
    alloc: Global,
    scans: &mut Scans,
    store: &mut Store<D>,
    who: u8,
    own: Option<TxnId>,
    name: &Name,
) -> Result<Acted, StoreFault>
    requires least { 1 ≤ who }
    requires most { who ≤ MOST_SESSIONS }
    requires closed { place who scans.old ≡ None }
    requires unspent { store.old.fault ≡ None }
    ensures acted { (x : Span) → IsAt D.meaning x own store.old → IsStarting x → HasActedAt D.meaning x (Some (asked.Scan name.now)) (place who scans.new) store.old store.new result }
    ensures called { HasCalled D.meaning store.old store.new result }
    ensures others { (v : ℕ) → 1 ≤ v → v ≢ who → place v scans.new ≡ place v scans.old }
    ensures kept { IfOk result (λ a. IsKept (place who scans.new) a.turned) }
    ensures same { OnErr result (place who scans.new ≡ None) }
{
    match find_named(alloc, store, name) {
        Ok(named) => match named.obj {
            Some(obj) => open_scan(alloc, scans, store, who, own, obj, name),
            None => Ok(refused(Refusal::NoTable, own)),
        },
        Err(fault) => Err(fault),
    }
}

/// Reads on in the scan of a table of which the name was copied.
fn read_named<D: Disk>(
    scans: &mut Scans,
    store: &mut Store<D>,
    who: u8,
    own: Option<TxnId>,
    table: Name,
) -> Result<Acted, StoreFault>
    requires least { 1 ≤ who }
    requires most { who ≤ MOST_SESSIONS }
    requires open { IsSome (place who scans.old) }
    requires unspent { store.old.fault ≡ None }
    ensures acted { (x : Span) → IsAt D.meaning x own store.old → IsReady store.old.shape x (Some (asked.Scan table)) (doing_at (place who scans.old) Doing.Scanning) → own_backed x.ended x.session ≡ false → IsShaped store.old.shape (place who scans.old) → HasActedAt D.meaning x (Some (asked.Scan table)) (place who scans.new) store.old store.new result }
    ensures called { HasCalled D.meaning store.old store.new result }
    ensures others { (v : ℕ) → 1 ≤ v → v ≢ who → place v scans.new ≡ place v scans.old }
    ensures kept { IfOk result (λ a. IsKept (place who scans.new) a.turned) }
    ensures same { OnErr result (place who scans.new ≡ place who scans.old) }
{
    let read = scans.blocks_read(who);
    match scans.read_next(store, who) {
        Ok(step) => Ok(stepped(step, table, own)),
        Err(fault) => failed(&fault, read, own),
    }
}

/// The next event of a scan that is open: reads one block. Others' scans stay as they are; a fault of the store leaves this one too.
pub fn go_on_scanning<D: Disk>(
    alloc: Global,
    scans: &mut Scans,
    store: &mut Store<D>,
    who: u8,
    own: Option<TxnId>,
    name: &Name,
) -> Result<Acted, StoreFault>
    requires least { 1 ≤ who }
    requires most { who ≤ MOST_SESSIONS }
    requires open { IsSome (place who scans.old) }
    requires unspent { store.old.fault ≡ None }
    ensures acted { (x : Span) → IsAt D.meaning x own store.old → IsReady store.old.shape x (Some (asked.Scan name.now)) (doing_at (place who scans.old) Doing.Scanning) → own_backed x.ended x.session ≡ false → IsShaped store.old.shape (place who scans.old) → HasActedAt D.meaning x (Some (asked.Scan name.now)) (place who scans.new) store.old store.new result }
    ensures called { HasCalled D.meaning store.old store.new result }
    ensures others { (v : ℕ) → 1 ≤ v → v ≢ who → place v scans.new ≡ place v scans.old }
    ensures kept { IfOk result (λ a. IsKept (place who scans.new) a.turned) }
    ensures same { OnErr result (place who scans.new ≡ place who scans.old) }
{
    match name.duplicate(alloc) {
        Ok(table) => read_named(scans, store, who, own, table),
        Err(_) => Err(StoreFault::NoMemory),
    }
}
