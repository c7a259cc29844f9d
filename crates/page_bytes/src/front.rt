// A page is written from its first byte on, over zeros.
ghost use Rattle.std.specs.Prelude.{◌≡◌, ◌≤◌, ◌+◌, ◌++◌, [], List, ℕ, length, flat_map};
ghost use Rattle.page_bytes.specs.Pages.{IsFront};

use crate::Piece;
use seg_base::BLOCK_SIZE;

/// Begins a page: all zeros.
#[tactic(auto, using(crate::proofs::Fronts::begun))]
pub fn begin(page: &mut [u8; BLOCK_SIZE]) -> usize
    ensures { IsFront page.new [] result }
{
    *page = [0; BLOCK_SIZE];
    0
}

/// Writes bytes behind those that a page begins with, and answers the place behind them.
pub fn add(page: &mut [u8; BLOCK_SIZE], at: usize, bytes: &[u8]) -> usize
    requires { at + length bytes.now ≤ BLOCK_SIZE }
    ensures place { result ≡ at + length bytes.now }
    ensures bytes { (front : List ℕ) → IsFront page.old front at → IsFront page.new (front ++ bytes.now) result }
{
    let end = at + bytes.len();
    page[at..end].copy_from_slice(bytes);
    end
}

/// Writes pieces one behind the other.
pub fn add_all<T: Piece>(page: &mut [u8; BLOCK_SIZE], at: usize, pieces: &[T]) -> usize
    requires { at + length (flat_map T.spelling pieces.now) ≤ BLOCK_SIZE }
    ensures place { result ≡ at + length (flat_map T.spelling pieces.now) }
    ensures bytes { (front : List ℕ) → IsFront page.old front at → IsFront page.new (front ++ flat_map T.spelling pieces.now) result }
{
    let mut next = at;
    for piece in pieces {
        next = piece.add(page, next);
    }
    next
}
