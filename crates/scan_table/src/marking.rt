// What a lowering of a table's marks released that a scan has yet to read.
ghost use Rattle.std.specs.Prelude.{◌≡◌, drop};
ghost use Rattle.redo_model.specs.Model.{in_extent};
ghost use Rattle.history_model.specs.Released.{has_any, least_having, least_with};

use seg_base::{Dba, OWN_BLOCKS, Shape};

fn is_in_extent(shape: &Shape, extent: u32, dba: Dba) -> bool
    ensures { result ≡ in_extent shape.now extent dba }
{
    let first = u64::from(OWN_BLOCKS) + u64::from(shape.undo);
    let block = u64::from(dba.0);
    if block < first {
        return false;
    }
    let at = block - first;
    let offset = u64::from(extent) * u64::from(shape.extent);
    offset <= at && at - offset < u64::from(shape.extent)
}

fn has_any(shape: &Shape, extent: u32, blocks: &[Dba]) -> bool
    ensures { result ≡ has_any shape.now extent blocks.now }
{
    for dba in blocks {
        if is_in_extent(shape, extent, *dba) {
            return true;
        }
    }
    false
}

fn lesser(extent: u32, least: Option<u32>) -> Option<u32>
    ensures { result ≡ least_with extent least }
{
    match least {
        None => Some(extent),
        Some(other) => Some(extent.min(other)),
    }
}

/// The least of the extents that has one of the blocks.
pub fn least_having(shape: &Shape, unread: &[Dba], extents: &[u32]) -> Option<u32>
    ensures { result ≡ least_having shape.now unread.now extents.now }
{
    match extents {
        [] => None,
        [extent, rest @ ..] => {
            let least = least_having(shape, unread, rest);
            if has_any(shape, *extent, unread) {
                return lesser(*extent, least);
            }
            least
        }
    }
}
