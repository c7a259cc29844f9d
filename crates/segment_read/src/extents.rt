// Which extents a table has, and which are free.
ghost use Rattle.std.specs.Prelude.{ℕ, ◌≡◌, ◌≤◌, ◌<◌, ◌↔◌, true, false, List, length, map, IfOk, IsOk, IfSome, MatchOption};
ghost use Rattle.seg_words.specs.Types.{Shape as TheShape, is_extent, is_shape};
ghost use Rattle.redo_model.specs.Records.{Record};
ghost use Rattle.redo_model.specs.Model.{extents_of, in_extent, index_of};
ghost use Rattle.page_fit.specs.Headers.{SaysHeader};
ghost use Rattle.page_says.specs.Space.{SaysSpace};
ghost use Rattle.mark_laws.specs.Movements.{least_free};
ghost use Rattle.segment_read.specs.Segments.{has_it};
ghost use Rattle.segment_blocks.specs.Types.{extent_at as extent_number};

use crate::WrongPage;
use page_set::Page;
use seg_base::{Dba, OWN_BLOCKS, Shape};
use segment_blocks::SegmentHeader;

/// Whether a block stands in an extent.
pub fn is_in_extent(shape: &Shape, extent: u32, dba: Dba) -> bool
    requires { is_shape shape.now ≡ true }
    ensures { result ≡ in_extent shape.now extent dba }
{
    let first = OWN_BLOCKS + shape.undo;
    if dba.0 < first {
        return false;
    }
    let at = u64::from(dba.0 - first);
    let offset = u64::from(extent) * u64::from(shape.extent);
    offset <= at && at - offset < u64::from(shape.extent)
}

fn has_block(header: &SegmentHeader, shape: &Shape, index: u16, dba: Dba) -> bool
    requires { is_shape shape.now ≡ true }
    ensures { result ≡ has_it shape.now (extent_number header.now.extents index) dba }
{
    match header.extent_at(index) {
        None => false,
        Some(extent) => is_in_extent(shape, extent, dba),
    }
}

/// The index of the extent in which a block stands, by the page of its table's header.
pub fn index_in(page: &Page, shape: &Shape, dba: Dba) -> Result<u16, WrongPage>
    requires { is_shape shape.now ≡ true }
    ensures says { (R : List Record) (o : ℕ) → SaysHeader R o page.now → IfOk result (λ i. i ≡ index_of shape.now (extents_of R o) dba) }
    ensures right { (R : List Record) (o : ℕ) → SaysHeader R o page.now → index_of shape.now (extents_of R o) dba < length (extents_of R o) → IsOk result }
{
    let Page::Header(header) = page else {
        return Err(WrongPage);
    };
    for index in 0..header.extents() {
        if has_block(header, shape, index, dba) {
            return Ok(index);
        }
    }
    Err(WrongPage)
}

/// How many whole extents the store has.
pub fn extent_count(shape: &Shape) -> u32
    requires { is_shape shape.now ≡ true }
    ensures value { (x : ℕ) → is_extent shape.now x ≡ true ↔ x < result }
    ensures most { result ≤ 2043 }
    ensures least { 1 ≤ result }
{
    (shape.blocks - OWN_BLOCKS - shape.undo) / shape.extent
}

/// The least extent that no table has, by the page of the space bitmap. None exactly where each whole extent has a table.
pub fn least_free_in(page: &Page, shape: &Shape) -> Result<Option<u32>, WrongPage>
    requires { is_shape shape.now ≡ true }
    ensures says { (R : List Record) → SaysSpace R page.now → IfOk result (λ x. x ≡ least_free shape.now R) }
    ensures right { (R : List Record) → SaysSpace R page.now → IsOk result }
{
    match page {
        Page::Zero(_) => Ok(Some(0)),
        Page::Space(space) => Ok(space.least_free(extent_count(shape))),
        _ => Err(WrongPage),
    }
}
