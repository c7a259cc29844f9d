// Pieces of one size, as entries of a list in a page.
ghost use Rattle.std.specs.Prelude.{◌≡◌, ◌≤◌, ◌+◌, ◌*◌, ◌++◌, List, ℕ, IfOk, length};
ghost use Rattle.page_bytes.specs.Pages.{IsFront};
ghost use Rattle.page_bytes.specs.Pieces.{pieces_in};

use seg_base::{BLOCK_SIZE, NoMemory};
use std::alloc::Global;

/// What stands in a fixed number of bytes.
pub trait Piece: Drop {
    const SIZE: usize;

    ghost SIZE: { ℕ };

    /// The bytes of a value.
    ghost spelling: { Self → List ℕ };

    /// What so many bytes read as: the nearest value that has a spelling.
    ghost meaning: { List ℕ → Self };

    /// The values whose spelling is theirs alone.
    ghost HasSpelling: { Self → Type 0 };

    fn read(alloc: Global, bytes: &[u8]) -> Result<Self, NoMemory>
        requires { length bytes.now ≡ SIZE }
        ensures { IfOk result (λ piece. piece ≡ meaning bytes.now) };

    /// Writes its bytes behind those that a page begins with.
    fn add(&self, page: &mut [u8; BLOCK_SIZE], at: usize) -> usize
        requires { at + SIZE ≤ BLOCK_SIZE }
        ensures place { result ≡ at + SIZE }
        ensures bytes { (front : List ℕ) → IsFront page.old front at → IsFront page.new (front ++ spelling self.now) result };

    /// Each value has as many bytes.
    ghost size: { (p : Self) → length (spelling p) ≡ SIZE };

    /// What is spelled is read.
    ghost reads_again: { (p : Self) → HasSpelling p → meaning (spelling p) ≡ p };
}

/// Reads pieces one behind the other.
pub fn read_all<T: Piece>(alloc: Global, count: u16, bytes: &[u8]) -> Result<Vec<T>, NoMemory>
    requires { count * T.SIZE ≤ length bytes.now }
    ensures { IfOk result (λ pieces. pieces.items ≡ pieces_in T.meaning T.SIZE count bytes.now) }
{
    let mut pieces = Vec::new(alloc);
    let mut rest = bytes;
    for _ in 0..count {
        let (piece, more) = rest.split_at(T::SIZE);
        pieces.push(T::read(alloc, piece)?)?;
        rest = more;
    }
    Ok(pieces)
}
