// The open scans of all sessions.
ghost use Rattle.std.specs.Prelude.{◌≡◌, ◌≢◌, ◌-◌, ◌<◌, ◌≤◌, ℕ, List, length, option_map, slice_index_or, slice_set, None, Some, is_some, IfOk, IsSome, OnErr};
ghost use Rattle.seg_words.specs.Types.{MOST_SESSIONS};
ghost use Rattle.redo_model.specs.Records.{Record};
ghost use Rattle.redo_model.specs.Model.{IsTable};
ghost use Rattle.version_read.specs.Walking.{IsOwn};
ghost use Rattle.store_core.specs.Causes.{HasLooked};
ghost use Rattle.store_core.specs.Store.{IsTrue};
ghost use Rattle.scan_table.specs.Reading.{store_part};
ghost use Rattle.scan_table.specs.Standing.{HoldsScan, marked_by};
ghost use Rattle.scan_table.specs.Places.{Begins, IsAfter, IsBegun, IsOpenAfter, Steps, blocks_read, left_by, place, stays_open};
ghost use Rattle.scan_table.specs.declared.scan.OpenScan.{OpenScan as TheScan};

use crate::opening::open_scan;
use crate::scan::OpenScan;
use crate::{ScanFault, ScanStep};
use disk_model::Disk;
use seg_base::{MOST_SESSIONS, NoMemory, Obj, TxnId};
use std::alloc::Global;
use std::marker::Model;
use store_core::{Lowered, Store};

/// The open scans, one place for each session.
#[derive(Drop)]
pub struct Scans {
    alloc: Global,
    places: Vec<Option<OpenScan>>,
}

impl Model for Scans {
    ghost use Rattle.std.specs.Prelude.{◌≡◌, List, Option, length};
    ghost use Rattle.seg_words.specs.Types.{MOST_SESSIONS};
    ghost use Rattle.scan_table.specs.declared.scan.OpenScan.{OpenScan};

    ghost Value = { List (Option OpenScan) };

    ghost view = { λ s. s.places.items };

    ghost invariant = { λ s. length s.places.items ≡ MOST_SESSIONS };
}

fn no_scans(alloc: Global) -> Result<Vec<Option<OpenScan>>, NoMemory>
    ensures count { IfOk result (λ v. length v.items ≡ MOST_SESSIONS) }
    ensures none { (at : ℕ) → IfOk result (λ v. slice_index_or v.items at None ≡ None) }
{
    let mut places = Vec::new(alloc);
    for who in 0..MOST_SESSIONS {
        let _ = who;
        places.push(None)?;
    }
    Ok(places)
}

fn take_at(places: &mut Vec<Option<OpenScan>>, who: u8) -> Option<OpenScan>
    requires least { 1 ≤ who }
    requires most { who ≤ length places.old.items }
    ensures scan { result ≡ place who places.old.items }
    ensures rest { places.new.items ≡ slice_set places.old.items (who - 1) None }
{
    places[usize::from(who) - 1].take()
}

fn put_at(places: &mut Vec<Option<OpenScan>>, who: u8, scan: OpenScan)
    requires least { 1 ≤ who }
    requires most { who ≤ length places.old.items }
    ensures { places.new.items ≡ slice_set places.old.items (who - 1) (Some scan) }
{
    places[usize::from(who) - 1] = Some(scan);
}

/// Whether a scan is open after an event with this answer.
fn stays_open(answer: &Result<ScanStep, ScanFault>) -> bool
    ensures { result ≡ stays_open answer.now }
{
    match answer {
        Ok(ScanStep::More) => true,
        Ok(ScanStep::Done(_)) => false,
        Err(ScanFault::Store(_)) => true,
        Err(_) => false,
    }
}

fn mark_at(places: &mut Vec<Option<OpenScan>>, at: usize, obj: Obj, gone: &Lowered)
    requires { at < length places.old.items }
    ensures { places.new.items ≡ slice_set places.old.items at (option_map (marked_by obj gone.now) (slice_index_or places.old.items at None)) }
{
    match &mut places[at] {
        None => {}
        Some(scan) => scan.mark_by(obj, gone),
    }
}

fn mark_all(places: &mut Vec<Option<OpenScan>>, obj: Obj, gone: &Lowered)
    ensures count { length places.new.items ≡ length places.old.items }
    ensures each { (at : ℕ) → slice_index_or places.new.items at None ≡ option_map (marked_by obj gone.now) (slice_index_or places.old.items at None) }
{
    for at in 0..places.len() {
        mark_at(places, at, obj, gone);
    }
}

fn blocks_read(scan: &Option<OpenScan>) -> usize
    ensures { result ≡ blocks_read scan.now }
{
    match scan {
        None => 0,
        Some(scan) => scan.read,
    }
}

impl Scans {
    /// No open scan, with all the memory that marks take.
    pub fn new(alloc: Global) -> Result<Scans, NoMemory>
        ensures { (who : ℕ) → IfOk result (λ s. place who s ≡ None) }
    {
        let places = no_scans(alloc)?;
        Ok(Scans { alloc, places })
    }

    /// Whether a session has an open scan.
    pub fn is_open(&self, who: u8) -> bool
        requires least { 1 ≤ who }
        requires most { who ≤ MOST_SESSIONS }
        ensures { result ≡ is_some (place who self.now) }
    {
        self.places[usize::from(who) - 1].is_some()
    }

    /// How many blocks of its list a session's open scan has read; 0 where it has none.
    pub fn blocks_read(&self, who: u8) -> usize
        requires least { 1 ≤ who }
        requires most { who ≤ MOST_SESSIONS }
        ensures { result ≡ blocks_read (place who self.now) }
    {
        blocks_read(&self.places[usize::from(who) - 1])
    }

    /// The first event of a scan of a session without an open one: takes the number of commits and the list of the blocks to read.
    /// Done where there is none. The table is there, and `own` is an active transaction or none. A refusal leaves all as it was.
    pub fn open<D: Disk>(
        &mut self,
        store: &mut Store<D>,
        who: u8,
        obj: Obj,
        own: Option<TxnId>,
    ) -> Result<ScanStep, ScanFault>
        requires least { 1 ≤ who }
        requires most { who ≤ MOST_SESSIONS }
        requires closed { place who self.old ≡ None }
        requires unspent { store.old.fault ≡ None }
        ensures looked { HasLooked D.meaning store.old store.new (store_part result) }
        ensures others { (v : ℕ) → 1 ≤ v → v ≢ who → place v self.new ≡ place v self.old }
        ensures kept { OnErr result (self.new ≡ self.old) }
        ensures after { IsOpenAfter (place who self.new) result }
        ensures begins { (R : List Record) → IsTrue D.meaning R store.old → IsTable R obj → IsOwn R own → Begins store.old.shape R obj own (place who self.new) result }
    {
        match open_scan(self.alloc, store, obj, own) {
            Err(fault) => Err(ScanFault::Store(fault)),
            Ok(scan) => Ok(self.begin(who, scan)),
        }
    }

    fn begin(&mut self, who: u8, scan: OpenScan) -> ScanStep
        requires least { 1 ≤ who }
        requires most { who ≤ MOST_SESSIONS }
        requires closed { place who self.old ≡ None }
        ensures others { (v : ℕ) → 1 ≤ v → v ≢ who → place v self.new ≡ place v self.old }
        ensures begun { IsBegun scan (place who self.new) result }
    {
        let mut scan = scan;
        match scan.outcome(self.alloc) {
            ScanStep::Done(scanned) => ScanStep::Done(scanned),
            ScanStep::More => {
                put_at(&mut self.places, who, scan);
                ScanStep::More
            }
        }
    }

    /// The next event of a session's open scan: reads one block as its rows were when the scan began, or refuses. The scan's own
    /// transaction has added nothing since, and what was released since was handed to `released`. Done and the refusals of the
    /// scan close it; a fault of the store leaves it as it was.
    pub fn read_next<D: Disk>(
        &mut self,
        store: &mut Store<D>,
        who: u8,
    ) -> Result<ScanStep, ScanFault>
        requires least { 1 ≤ who }
        requires most { who ≤ MOST_SESSIONS }
        requires open { IsSome (place who self.old) }
        requires unspent { store.old.fault ≡ None }
        ensures looked { HasLooked D.meaning store.old store.new (store_part result) }
        ensures others { (v : ℕ) → 1 ≤ v → v ≢ who → place v self.new ≡ place v self.old }
        ensures settled { (s : TheScan) → place who self.old ≡ Some s → IsAfter s (place who self.new) result }
        ensures steps { (B R : List Record) (s : TheScan) → IsTrue D.meaning R store.old → place who self.old ≡ Some s → HoldsScan store.old.shape B R s → Steps B R s (place who self.new) result }
    {
        let mut scan = take_at(&mut self.places, who).unwrap();
        let answer = scan.advance(self.alloc, store);
        self.put_back(who, scan, &answer);
        answer
    }

    /// Puts a scan back that stays open after an event with this answer.
    fn put_back(&mut self, who: u8, scan: OpenScan, answer: &Result<ScanStep, ScanFault>)
        requires least { 1 ≤ who }
        requires most { who ≤ MOST_SESSIONS }
        requires closed { place who self.old ≡ None }
        ensures others { (v : ℕ) → 1 ≤ v → v ≢ who → place v self.new ≡ place v self.old }
        ensures own { place who self.new ≡ left_by answer.now scan }
    {
        if stays_open(answer) {
            put_at(&mut self.places, who, scan);
        }
    }

    /// Marks the open scans of a table of which extents were released that have a block to read.
    pub fn released(&mut self, obj: Obj, gone: &Lowered)
        ensures { (who : ℕ) → 1 ≤ who → place who self.new ≡ option_map (marked_by obj gone.now) (place who self.old) }
    {
        mark_all(&mut self.places, obj, gone);
    }
}
