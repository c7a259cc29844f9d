// The words of the command line.
ghost use Rattle.std.specs.Prelude.{◌≡◌, IfSome, true, map, string_bytes};
ghost use Rattle.seg_words.specs.Types.{is_shape};
ghost use Rattle.script_text.specs.Pieces.{ordinal_of};
ghost use Rattle.assm.specs.Words.{command_in, generate_in, of_shape, of_table, of_three, shape_in, single, table_in, IsWithin};

use script_text::number;
use seg_base::{MOST_BLOCKS, MOST_EXTENT_BLOCKS, MOST_UNDO_BLOCKS, Shape, is_name};

/// The rows that a script may have which is made from a number.
const MOST_ROWS: u16 = 20_000;

/// What the words ask for.
#[derive(Clone, Copy, Debug, Drop)]
pub enum Command {
    Format(Shape),
    Run,
    /// The usage of the table that the second word names.
    Usage,
    /// Its repair.
    Repair,
    Check,
    /// The script that is made from a number, of so many rows.
    Generate { number: u32, rows: u16 },
}

/// The shape that three numbers state, where it is within the limits.
fn shape_in(blocks: &[u8], extent: &[u8], undo: &[u8]) -> Option<Shape>
    ensures value { result ≡ shape_in blocks.now extent.now undo.now }
    ensures within { IfSome result (λ shape. is_shape shape ≡ true) }
{
    let blocks = number(blocks, MOST_BLOCKS as u64)? as u32;
    let extent = number(extent, MOST_EXTENT_BLOCKS as u64)? as u32;
    let undo = number(undo, MOST_UNDO_BLOCKS as u64)? as u32;
    let shape = Shape {
        blocks,
        extent,
        undo,
    };
    if shape.is_within_limits() {
        Some(shape)
    } else {
        None
    }
}

/// A command of one word.
fn single(word: &[u8]) -> Option<Command>
    ensures { result ≡ single word.now }
{
    if word == b"run".as_slice() {
        return Some(Command::Run);
    }
    if word == b"check".as_slice() {
        return Some(Command::Check);
    }
    None
}

/// A command of a word and a table's name.
fn of_table(word: &[u8], table: &[u8]) -> Option<Command>
    ensures { result ≡ of_table word.now table.now }
{
    if !is_name(table) {
        return None;
    }
    if word == b"usage".as_slice() {
        return Some(Command::Usage);
    }
    if word == b"repair".as_slice() {
        return Some(Command::Repair);
    }
    None
}

/// How many rows a script is to have that is made from a number.
fn rows_in(rows: &[u8]) -> Option<u16>
    ensures { result ≡ ordinal_of MOST_ROWS rows.now }
{
    match number(rows, MOST_ROWS as u64) {
        None => None,
        Some(0) => None,
        Some(rows) => Some(rows as u16),
    }
}

/// The making of a script that a number and a count of rows ask for, where they are in their ranges.
fn generate_in(seed: &[u8], rows: &[u8]) -> Option<Command>
    ensures value { result ≡ generate_in seed.now rows.now }
    ensures within { IfSome result IsWithin }
{
    let number = number(seed, u32::MAX as u64)? as u32;
    let rows = rows_in(rows)?;
    Some(Command::Generate { number, rows })
}

/// A command of three words.
fn of_three(word: &[u8], seed: &[u8], rows: &[u8]) -> Option<Command>
    ensures value { result ≡ of_three word.now seed.now rows.now }
    ensures within { IfSome result IsWithin }
{
    if word != b"gen".as_slice() {
        return None;
    }
    generate_in(seed, rows)
}

/// A command of a word and a store's shape.
fn of_shape(word: &[u8], blocks: &[u8], extent: &[u8], undo: &[u8]) -> Option<Command>
    ensures value { result ≡ of_shape word.now blocks.now extent.now undo.now }
    ensures within { IfSome result IsWithin }
{
    if word != b"format".as_slice() {
        return None;
    }
    Some(Command::Format(shape_in(blocks, extent, undo)?))
}

/// What the words ask for. None exactly where they are not in the list of commands, with their ranges.
pub fn command_in(words: &[String]) -> Option<Command>
    ensures value { result ≡ command_in (map string_bytes words.now) }
    ensures within { IfSome result IsWithin }
{
    match words {
        [word] => single(word.as_bytes()),
        [word, table] => of_table(word.as_bytes(), table.as_bytes()),
        [word, seed, rows] => of_three(word.as_bytes(), seed.as_bytes(), rows.as_bytes()),
        [word, blocks, extent, undo] => of_shape(
            word.as_bytes(),
            blocks.as_bytes(),
            extent.as_bytes(),
            undo.as_bytes(),
        ),
        _ => None,
    }
}

/// The second of two words.
pub fn table_in(words: &[String]) -> &[u8]
    ensures { result.now ≡ table_in (map string_bytes words.now) }
{
    match words {
        [_, table] => table.as_bytes(),
        _ => b"",
    }
}
