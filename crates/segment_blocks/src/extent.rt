// An extent's number in four bytes.
ghost use Rattle.std.specs.Prelude.{◌≡◌};
ghost use Rattle.segment_blocks.specs.Headers.{extent_bytes, extent_in};

use page_bytes::{Piece, add, number_u32};
use seg_base::{BLOCK_SIZE, NoMemory};
use std::alloc::Global;
use std::marker::Model;

/// An extent's number.
#[derive(Clone, Copy, Debug, Drop)]
pub struct ExtentNumber(pub u32);

impl Model for ExtentNumber {
    ghost use Rattle.std.specs.Prelude.{ℕ};

    ghost Value = { ℕ };

    ghost view = { λ x. x.0 };

    ghost inverse = { λ n. record { 0 = n } };
}

impl Piece for ExtentNumber {
    ghost use Rattle.std.specs.Prelude.{◌<◌, ◌^◌, refl};
    ghost use Rattle.segment_blocks.specs.Headers.{extent_bytes, extent_in};
    ghost use Rattle.segment_blocks.specs.HeaderAgain.{extent_again};

    const SIZE: usize = 4;

    ghost SIZE = { 4 };

    ghost spelling = { extent_bytes };

    ghost meaning = { extent_in };

    ghost HasSpelling = { λ x. x < 2 ^ 32 };

    fn read(_alloc: Global, bytes: &[u8]) -> Result<ExtentNumber, NoMemory> {
        Ok(ExtentNumber(number_u32(bytes, 0)))
    }

    fn add(&self, page: &mut [u8; BLOCK_SIZE], at: usize) -> usize {
        let number = *self;
        add(page, at, &number.0.to_be_bytes())
    }

    ghost size = { λ x. refl };

    ghost reads_again = { extent_again };
}
