// The one form in which a page of any kind is decoded.
ghost use Rattle.std.specs.Prelude.{◌≡◌, ◌≤◌, List, ℕ, IfOk};
ghost use Rattle.page_bytes.specs.Pages.{Decodes, IsReadAs, first_wrong};

use crate::PageFault;
use crate::compare::first_wrong;
use seg_base::{BLOCK_SIZE, NoMemory};
use std::alloc::Global;

/// The pages of one kind. Each value has one spelling, and each page that spells one is read as that value.
pub trait PageForm: Drop {
    /// The 4,096 bytes of a value.
    ghost spelling: { Self → List ℕ };

    /// What the fields of some bytes read as, each as the nearest value that has a spelling.
    ghost meaning: { List ℕ → Self };

    /// The values whose spelling is theirs alone.
    ghost HasSpelling: { Self → Type 0 };

    fn read(alloc: Global, bytes: &[u8; BLOCK_SIZE]) -> Result<Self, NoMemory>
        ensures { IfOk result (λ page. page ≡ meaning bytes.now) };

    fn write(&self, out: &mut [u8; BLOCK_SIZE])
        ensures { out.new ≡ spelling self.now };

    /// What is spelled is read.
    ghost reads_again: { (p : Self) → HasSpelling p → meaning (spelling p) ≡ p };
}

/// How far the bytes are the spelling of the page.
fn spelled_until<P: PageForm>(page: &P, bytes: &[u8; BLOCK_SIZE]) -> usize
    ensures value { result ≡ first_wrong bytes.now (P.spelling page.now) }
    ensures range { result ≤ BLOCK_SIZE }
    ensures same { BLOCK_SIZE ≤ result → bytes.now ≡ P.spelling page.now }
{
    let mut again = [0; BLOCK_SIZE];
    page.write(&mut again);
    first_wrong(bytes, &again)
}

/// The page that the bytes spell, or the first byte that is wrong.
pub fn decode<P: PageForm>(alloc: Global, bytes: &[u8; BLOCK_SIZE]) -> Result<P, PageFault>
    // What is read is spelled so, and a fault is the first one.
    ensures exact { Decodes P.spelling P.meaning bytes.now result }
    // What is spelled is read.
    ensures only { (p : P) → P.HasSpelling p → bytes.now ≡ P.spelling p → IsReadAs p result }
{
    let page = P::read(alloc, bytes)?;
    let at = spelled_until(&page, bytes);
    if at < BLOCK_SIZE {
        return Err(PageFault::BadPage { offset: at as u16 });
    }
    Ok(page)
}
