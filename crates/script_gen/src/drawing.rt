// Numbers that look random, and the rows that they draw.
ghost use Rattle.std.specs.Prelude.{◌≡◌, IfOk};
ghost use Rattle.script_gen.specs.Drawn.{first_number, next_number, row_of};

use seg_base::NoMemory;
use std::alloc::Global;

const MODULUS: u32 = 1 << 31;

const MULTIPLIER: u64 = 1_103_515_245;

const INCREMENT: u64 = 12_345;

/// The lower bits of such numbers repeat soon, so the rows are drawn by the upper ones.
const LOWER: u32 = 65_536;

const LEAST_LENGTH: u32 = 20;

const LENGTHS: u32 = 61;

const LETTERS: u32 = 26;

pub fn first_number(number: u32) -> u32
    ensures { result ≡ first_number number }
{
    number % MODULUS
}

#[tactic(auto, unfolding(crate::specs::Drawn::next_number))]
pub fn next_number(x: u32) -> u32
    ensures { result ≡ next_number x }
{
    ((u64::from(x) * MULTIPLIER + INCREMENT) % u64::from(MODULUS)) as u32
}

/// The row that a number draws: one letter, over and over.
#[tactic(auto, unfolding(crate::specs::Drawn::row_of))]
pub fn row_of(alloc: Global, x: u32) -> Result<Vec<u8>, NoMemory>
    ensures { IfOk result (λ row. row.items ≡ row_of x) }
{
    let drawn = x / LOWER;
    let length = (LEAST_LENGTH + drawn % LENGTHS) as usize;
    let letter = b'a' + (drawn % LETTERS) as u8;
    Ok(vec![in alloc; letter; length]?)
}
