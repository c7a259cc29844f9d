// What one page says.
ghost use Rattle.std.specs.Prelude.{ℕ, ◌≡◌, ◌≤◌, ◌<◌, true, List, length, IfOk, IsOk, Some};
ghost use Rattle.seg_words.specs.Types.{Shape as TheShape, MOST_EXTENTS, MOST_PCTFREE};
ghost use Rattle.redo_model.specs.Records.{Record};
ghost use Rattle.redo_model.specs.Model.{IsTable, extents_of, header_of, is_whole, table_count};
ghost use Rattle.page_fit.specs.Headers.{SaysHeader};
ghost use Rattle.page_says.specs.Named.{SaysCatalogue};
ghost use Rattle.segment_read.specs.Segments.{IsSegment, number_at};

use crate::Segment;
use page_set::Page;
use seg_base::{Dba, Obj};

/// The page is of another kind than its place asks for, or says something that no true store says.
#[derive(Clone, Copy, Debug, PartialEq, Eq, Drop)]
pub struct WrongPage;

/// The block of a table's header, by the catalogue's page.
pub fn header_in(page: &Page, obj: Obj) -> Result<Dba, WrongPage>
    ensures says { (sh : TheShape) (R : List Record) → SaysCatalogue sh R page.now → is_whole R ≡ true → IsTable R obj → IfOk result (λ d. d ≡ header_of sh (extents_of R obj)) }
    ensures right { (sh : TheShape) (R : List Record) → SaysCatalogue sh R page.now → is_whole R ≡ true → IsTable R obj → IsOk result }
{
    let Page::Catalogue(catalogue) = page else {
        return Err(WrongPage);
    };
    match catalogue.header(obj) {
        Some(header) => Ok(header),
        None => Err(WrongPage),
    }
}

/// How many tables there are, by the catalogue's page: none before it was first written.
pub fn tables_in(page: &Page) -> Result<u8, WrongPage>
    ensures says { (sh : TheShape) (R : List Record) → SaysCatalogue sh R page.now → IfOk result (λ n. n ≡ table_count R) }
    ensures right { (sh : TheShape) (R : List Record) → SaysCatalogue sh R page.now → IsOk result }
{
    match page {
        Page::Zero(_) => Ok(0),
        Page::Catalogue(catalogue) => Ok(catalogue.tables()),
        _ => Err(WrongPage),
    }
}

/// The segment of a table, by the page of its header.
pub fn segment_in(page: &Page, header: Dba) -> Result<Segment, WrongPage>
    ensures says { (sh : TheShape) (R : List Record) (o : ℕ) → SaysHeader R o page.now → header ≡ header_of sh (extents_of R o) → IfOk result (IsSegment sh R o) }
    ensures right { (R : List Record) (o : ℕ) → SaysHeader R o page.now → IsOk result }
    ensures most { IfOk result (λ s. s.extents ≤ MOST_EXTENTS) }
    ensures percent { IfOk result (λ s. s.pctfree ≤ MOST_PCTFREE) }
{
    let Page::Header(page) = page else {
        return Err(WrongPage);
    };
    let (low, high) = page.marks();
    Ok(Segment {
        obj: page.obj(),
        header,
        pctfree: page.pctfree(),
        movement: page.movement(),
        low,
        high,
        extents: page.extents(),
    })
}

/// The number of the extent at an index, by the page of the header.
pub fn extent_in(page: &Page, index: u16) -> Result<u32, WrongPage>
    ensures says { (R : List Record) (o : ℕ) → SaysHeader R o page.now → IfOk result (λ x. number_at (extents_of R o) index ≡ Some x) }
    ensures right { (R : List Record) (o : ℕ) → SaysHeader R o page.now → index < length (extents_of R o) → IsOk result }
{
    let Page::Header(page) = page else {
        return Err(WrongPage);
    };
    match page.extent_at(index) {
        Some(extent) => Ok(extent),
        None => Err(WrongPage),
    }
}
