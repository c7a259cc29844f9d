ghost use Rattle.std.specs.Prelude.{◌<◌};

use crate::{EndedIn, Seen, UndoPages, Version, image_at, look, look_in, walk};
use page_bytes::decode;
use row_block::RowBlock;
use seg_base::{Dba, Ended, Kind, NoMemory, RowNo, Scn, Slot, Text, TxnId, UndoAddr, Writer};
use std::alloc::Global;
use std::test::Fail;
use txn_block::TxnBlock;
use undo_block::{Part, UndoBlock, have_part_form};

/// A table where transaction 1 has committed as 5, 2 was rolled back, 3 is active, and 4 is forgotten: the last
/// transaction is 9 and the control number 2.
fn table(alloc: Global) -> Result<TxnBlock, Fail> {
    let mut page = [0; 4096];
    page[0] = 2;
    page[7] = 1;
    page[23] = 2;
    page[31] = 9;
    for (at, txn, state, number) in [(48, 1, 2, 5), (80, 2, 3, 0), (112, 3, 1, 0)] {
        put_entry(&mut page, at, txn, state, number);
    }
    Ok(decode(alloc, &page)?)
}

fn put_entry(page: &mut [u8; 4096], at: usize, txn: u8, state: u8, number: u8) {
    if at < 4000 {
        page[at + 7] = txn;
        page[at + 8] = state;
        page[at + 16] = number;
    }
}

fn at(block: u32, seq: u64, nth: u8) -> UndoAddr
    requires { 0 < block }
    ensures { 0 < result.block }
{
    UndoAddr { block, seq, nth }
}

fn image(
    alloc: Global,
    kind: Kind,
    writer: Writer,
    undo: Option<UndoAddr>,
    row: u64,
) -> Result<Slot, NoMemory> {
    Ok(Slot {
        kind,
        writer,
        undo,
        row: RowNo(row),
        link: None,
        bytes: Text::empty(alloc),
        room: 0,
    })
}

/// A letter for what an image shows: its row, nothing, the image below, or a forgotten transaction.
fn letter(version: &Version) -> char {
    match version {
        Version::Row(_) => 'r',
        Version::Nothing => 'n',
        Version::Step(_) => 's',
        Version::TooOldEntry(_) => 'f',
    }
}

// Which images count: the reader's own, those of a commit number or a committed transaction up to the reader's number, and
// those of a forgotten transaction from the control number on.
#[test]
fn writers_tell_what_counts(rt: HostRuntime) -> Result<(), Fail> {
    let alloc = rt.alloc();
    let table = table(alloc)?;
    for (kind, writer, s, own, want) in [
        (Kind::Row, Writer::By(TxnId(3)), 0, Some(TxnId(3)), 'r'),
        (Kind::Row, Writer::By(TxnId(3)), 9, Some(TxnId(8)), 's'),
        (Kind::Row, Writer::By(TxnId(3)), 9, None, 's'),
        (Kind::Row, Writer::By(TxnId(1)), 5, None, 'r'),
        (Kind::Row, Writer::By(TxnId(1)), 4, None, 's'),
        (Kind::Row, Writer::By(TxnId(2)), 9, None, 's'),
        (Kind::Row, Writer::By(TxnId(4)), 2, None, 'r'),
        (Kind::Row, Writer::By(TxnId(4)), 1, None, 'f'),
        (Kind::Body, Writer::At(Scn(3)), 3, None, 'r'),
        (Kind::Row, Writer::At(Scn(3)), 2, None, 's'),
        (Kind::Head, Writer::At(Scn(3)), 3, None, 'n'),
        (Kind::Empty, Writer::By(TxnId(1)), 5, None, 'n'),
    ] {
        let slot = image(alloc, kind, writer, Some(at(37, 1, 0)), 7)?;
        let shown = letter(&look(&slot, &table, Scn(s), own));
        assert_eq!(rt; shown, want, "{kind:?} {writer:?} at {s}");
    }
    Ok(())
}

// A block is asked and changed with the table's knowledge of who has ended, and its slots are looked at by number.
#[test]
fn slots_are_looked_at_by_number(rt: HostRuntime) -> Result<(), Fail> {
    let alloc = rt.alloc();
    let table = table(alloc)?;
    let ended = EndedIn::of(&table);
    let mut page = RowBlock::new(alloc, Dba(43));
    page.set_slot(
        &ended,
        0,
        Slot {
            kind: Kind::Row,
            writer: Writer::By(TxnId(1)),
            undo: Some(at(37, 1, 0)),
            row: RowNo(7),
            link: None,
            bytes: Text::empty(alloc),
            room: 0,
        },
    )?;
    assert!(rt;
        matches!(look_in(&page, 0, &table, Scn(5), None), Some(Version::Row(slot)) if slot.row == RowNo(7))
    );
    assert!(rt;
        matches!(
            look_in(&page, 0, &table, Scn(4), None),
            Some(Version::Step(_))
        )
    );
    assert!(rt; look_in(&page, 1, &table, Scn(5), None).is_none());
    for (txn, want) in [(1, true), (2, true), (3, false), (4, true), (12, true)] {
        assert_eq!(rt; ended.ended(TxnId(txn)), want, "{txn}");
    }
    Ok(())
}

/// Undo blocks 37 and on, of which one is lent at a time.
#[derive(Drop)]
struct Ring {
    blocks: Vec<UndoBlock>,
    fetches: u32,
}

impl UndoPages for Ring {
    ghost use Rattle.std.specs.Prelude.{◌≡◌, ◌-◌, ℕ, MatchOption, slice_get, refl};
    ghost use Rattle.std.proofs.Common.{◌∙◌, subst};
    ghost use Rattle.version_laws.specs.Types.{HoldsUndo, IsInUse};

    type Fault = u32;

    ghost has_list = { λ sh R r. (u : ℕ) → MatchOption (slice_get r.blocks.items (u - 37)) (IsInUse sh R u → ⊥) (HoldsUndo R u) };

    ghost lends = { λ u r. Unit {0} };

    ghost looked = { λ a b. a.blocks.items ≡ b.blocks.items };

    ghost failed = { λ a b f. Unit {0} };

    ghost is_sound = { λ f. ⊥ };

    fn fetch_undo(&mut self, block: u32) -> Result<(), u32> {
        let _ = block;
        self.fetches = self.fetches.saturating_add(1);
        Ok(())
    }

    fn undo(&self, block: u32) -> Option<&UndoBlock> {
        self.blocks
            .as_slice()
            .get((block as usize).saturating_sub(37))
    }

    fn refuse_undo(&mut self, block: u32) -> u32 {
        block
    }

    ghost kept = { λ sh R a b e h. λ u. subst (λ bs. MatchOption (slice_get bs (u - 37)) (IsInUse sh R u → ⊥) (HoldsUndo R u)) e (h u) };

    ghost looked_none = { λ a. refl };

    ghost looked_on = { λ a b c x y. x ∙ y };

    ghost failed_on = { λ a b c f x y. tt };
}

/// A part whose old image was written so.
fn part(alloc: Global, writer: Writer, undo: UndoAddr, row: u64) -> Result<Part, NoMemory> {
    Ok(Part {
        txn: TxnId(3),
        previous: None,
        dba: Dba(43),
        slot: 0,
        parts: 1,
        old: image(alloc, Kind::Row, writer, Some(undo), row)?,
    })
}

/// Two undo blocks. From 37.0.1 the active transaction 3 leads to 37.0.0, that to 38.0.0, which commit 2 wrote over a part
/// that is gone; 38.0.1 leads to itself.
fn two_blocks(alloc: Global) -> Result<Ring, Fail> {
    let mut first = UndoBlock::new(alloc, Dba(37));
    let parts = [
        part(alloc, Writer::By(TxnId(3)), at(38, 0, 0), 7)?,
        part(alloc, Writer::By(TxnId(3)), at(37, 0, 0), 7)?,
    ];
    if have_part_form(&parts) {
        first.append(&parts)?;
    }
    let mut second = UndoBlock::new(alloc, Dba(38));
    let parts = [
        part(alloc, Writer::At(Scn(2)), at(37, 9, 5), 8)?,
        part(alloc, Writer::By(TxnId(3)), at(38, 0, 1), 7)?,
    ];
    if have_part_form(&parts) {
        second.append(&parts)?;
    }
    let mut blocks = Vec::new(alloc);
    blocks.push(first)?;
    blocks.push(second)?;
    Ok(Ring { blocks, fetches: 0 })
}

// A walk passes over another active transaction's images, of whichever block, and fetches a block once for the parts that
// stand in it one after the other; it ends at the row, at a part that is gone, or, where parts lead in a ring or nowhere, at
// the block where it stands.
#[test]
fn walk_goes_down_through_undo(rt: HostRuntime) -> Result<(), Fail> {
    let alloc = rt.alloc();
    let table = table(alloc)?;
    for (from, s, want) in [
        (at(37, 0, 1), 2, Ok(Seen::Row(at(38, 0, 0)))),
        (at(37, 0, 1), 1, Ok(Seen::TooOld(at(37, 9, 5)))),
        (at(38, 1, 0), 2, Ok(Seen::TooOld(at(38, 1, 0)))),
        (at(38, 0, 1), 2, Err(38)),
        (at(38, 0, 2), 2, Err(38)),
        (at(39, 0, 0), 2, Err(39)),
    ] {
        let mut ring = two_blocks(alloc)?;
        assert_eq!(rt;
            walk(&mut ring, &table, from, Scn(s), None, 2),
            want,
            "{from:?} at {s}"
        );
    }
    let mut ring = two_blocks(alloc)?;
    walk(&mut ring, &table, at(37, 0, 1), Scn(2), None, 2).is_ok();
    assert_eq!(rt; ring.fetches, 2);
    assert!(rt; matches!(image_at(&ring, at(38, 0, 0)), Some(slot) if slot.row == RowNo(8)));
    Ok(())
}
