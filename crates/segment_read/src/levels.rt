// What a page of the bitmaps says.
ghost use Rattle.std.specs.Prelude.{ℕ, ◌≡◌, ◌<◌, ◌+◌, ◌*◌, true, List, IfOk, IsOk};
ghost use Rattle.seg_words.specs.Types.{Shape as TheShape, first_block};
ghost use Rattle.redo_model.specs.Records.{Record};
ghost use Rattle.redo_model.specs.Model.{Extent, best_in_l1, best_in_l2, code_of, extent_data};
ghost use Rattle.redo_laws.specs.Among.{is_in};
ghost use Rattle.page_says.specs.Levels.{SaysFirst, SaysSecond, SaysThird};

use crate::WrongPage;
use page_set::Page;
use seg_base::{EXTENTS_OF_L2, Lsn, MOST_EXTENT_BLOCKS};

/// The incarnation of an extent, the LSN of the record by which its table got it, by the page of the extent's first level.
pub fn incarnation_in(page: &Page) -> Result<Lsn, WrongPage>
    ensures says { (sh : TheShape) (R : List Record) (index : ℕ) (e : Extent) → SaysFirst sh R index e page.now → IfOk result (λ l. l ≡ e.incarnation) }
    ensures right { (sh : TheShape) (R : List Record) (index : ℕ) (e : Extent) → SaysFirst sh R index e page.now → IsOk result }
{
    let Page::First(map) = page else {
        return Err(WrongPage);
    };
    Ok(map.incarnation())
}

/// The code of a data block, the nth of its extent, by the page of the extent's first level: that of its kept class, 1 to 5,
/// once it is formatted, else 0.
#[tactic(auto, using(crate::proofs::Codes::code_says))]
pub fn code_of_block(page: &Page, nth: u16) -> Result<u8, WrongPage>
    ensures says { (sh : TheShape) (R : List Record) (index : ℕ) (e : Extent) → SaysFirst sh R index e page.now → is_in (first_block sh e.number + nth) (extent_data sh index e.number) ≡ true → IfOk result (λ c. c ≡ code_of sh R (first_block sh e.number + nth)) }
    ensures right { (sh : TheShape) (R : List Record) (index : ℕ) (e : Extent) → SaysFirst sh R index e page.now → nth < MOST_EXTENT_BLOCKS → IsOk result }
{
    let Page::First(map) = page else {
        return Err(WrongPage);
    };
    if nth >= MOST_EXTENT_BLOCKS as u16 {
        return Err(WrongPage);
    }
    Ok(map.get(nth))
}

/// The best code from 2 on of the data blocks of an extent, else 0, by the page of the second level: the extent is the nth of
/// those that it covers.
pub fn best_of_extent(page: &Page, nth: u16) -> Result<u8, WrongPage>
    ensures says { (sh : TheShape) (R : List Record) (o start : ℕ) → SaysSecond sh R o start page.now → IfOk result (λ c. c ≡ best_in_l1 sh R o (start + nth)) }
    ensures right { (sh : TheShape) (R : List Record) (o start : ℕ) → SaysSecond sh R o start page.now → nth < EXTENTS_OF_L2 → IsOk result }
{
    let Page::Second(map) = page else {
        return Err(WrongPage);
    };
    if nth >= EXTENTS_OF_L2 as u16 {
        return Err(WrongPage);
    }
    Ok(map.get(nth))
}

/// The best of the extents that the nth second level covers, by the page of the third level.
pub fn best_of_group(page: &Page, nth: u16) -> Result<u8, WrongPage>
    ensures says { (sh : TheShape) (R : List Record) (o : ℕ) → SaysThird sh R o page.now → IfOk result (λ c. c ≡ best_in_l2 sh R o (EXTENTS_OF_L2 * nth)) }
    ensures right { (sh : TheShape) (R : List Record) (o : ℕ) → SaysThird sh R o page.now → nth < 3 → IsOk result }
{
    let Page::Third(map) = page else {
        return Err(WrongPage);
    };
    if nth >= 3 {
        return Err(WrongPage);
    }
    Ok(map.get(nth))
}
