// The head of a log.
ghost use Rattle.std.specs.Prelude.{◌≡◌, ◌⊎◌, ◌↔◌, ◌+◌, ◌-◌, ◌≤◌, ◌++◌, ◌∷◌, ℕ, List, [], length, drop, IfOk, IfErr, OnOk, IsErr, IsErrOf, false, true};
ghost use Rattle.seg_words.specs.Types.{w32, number_in, is_shape, Shape};
ghost use Rattle.disk_model.specs.Types.{Meaning, Leaves, Causes, Untouched, OnlyFile, IsSettled};
ghost use Rattle.disk_model.specs.declared.disk.File.TheVariants.{Log};
ghost use Rattle.log_frame.specs.Found.{IsHeadFound, Answers};
ghost use Rattle.log_frame.specs.Head.{head_body, is_formatted, first_wrong as wrong_from, wrong_number as number_wrong, shape_in, shape_found};
ghost use Rattle.log_frame.specs.Spelling.{IsLog, IsClosed, EmptyOrNone};
ghost use Rattle.log_frame.specs.Ready.{Settles, Leads};

use crate::fault::{FrameFault, WrongByte};
use disk_model::{Disk, File, write_and_sync};
use seg_base::{
    FIRST_GATE, LEAST_BLOCKS, LEAST_EXTENT_BLOCKS, LEAST_UNDO_BLOCKS, LOG_HEAD_SIZE, MOST_BLOCKS,
    MOST_EXTENT_BLOCKS, MOST_UNDO_BLOCKS, OWN_BLOCKS, Shape,
};

/// The name in a log's head, behind its gate.
pub const HEAD_NAME: [u8; 8] = *b"ASSMSEG1";

/// Where the numbers of the store's shape stand in a log's head, and the zeros behind them.
pub const BLOCKS_AT: usize = 9;

pub const EXTENT_AT: usize = 13;

pub const UNDO_AT: usize = 17;

pub const ZEROS_AT: usize = 21;

/// How many zeros these are.
pub const HEAD_ZEROS: usize = 42;

// The head behind its gate, with the closed gate of the first group.
fn head_bytes(shape: &Shape) -> [u8; LOG_HEAD_SIZE - 1]
    ensures { result ≡ head_body shape.now ++ 0 ∷ [] }
{
    let [n0, n1, n2, n3, n4, n5, n6, n7] = HEAD_NAME;
    let [b0, b1, b2, b3] = shape.blocks.to_be_bytes();
    let [e0, e1, e2, e3] = shape.extent.to_be_bytes();
    let [u0, u1, u2, u3] = shape.undo.to_be_bytes();
    [
        n0, n1, n2, n3, n4, n5, n6, n7, b0, b1, b2, b3, e0, e1, e2, e3, u0, u1, u2, u3, 0, 0, 0, 0,
        0, 0, 0, 0, 0, 0, 0, 0, 0, 0, 0, 0, 0, 0, 0, 0, 0, 0, 0, 0, 0, 0, 0, 0, 0, 0, 0, 0, 0, 0,
        0, 0, 0, 0, 0, 0, 0, 0, 0,
    ]
}

// The first byte from a place on that isn't the right one.
fn first_wrong(bytes: &[u8], at: usize, right: &[u8]) -> Option<WrongByte>
    requires { at + length right.now ≤ length bytes.now }
    ensures { result ≡ wrong_from at right.now (drop at bytes.now) }
{
    for (i, want) in right.iter().enumerate() {
        let seen = bytes[at + i];
        if seen != *want {
            let offset = (at + i) as u64;
            return Some(WrongByte { offset, seen });
        }
    }
    None
}

// The number that is out of its range, if one is.
fn wrong_number(bytes: &[u8], shape: &Shape) -> Option<WrongByte>
    requires { length bytes.now ≡ LOG_HEAD_SIZE }
    ensures { result ≡ number_wrong bytes.now shape.now }
{
    let bad = |at: usize| WrongByte {
        offset: at as u64,
        seen: bytes[at],
    };
    if shape.blocks < LEAST_BLOCKS || shape.blocks > MOST_BLOCKS {
        return Some(bad(BLOCKS_AT));
    }
    if shape.extent < LEAST_EXTENT_BLOCKS || shape.extent > MOST_EXTENT_BLOCKS {
        return Some(bad(EXTENT_AT));
    }
    if shape.undo < LEAST_UNDO_BLOCKS || shape.undo > MOST_UNDO_BLOCKS {
        return Some(bad(UNDO_AT));
    }
    if OWN_BLOCKS + shape.undo + shape.extent > shape.blocks {
        return Some(bad(UNDO_AT));
    }
    None
}

// The number at a place of some bytes.
fn number_at(bytes: &[u8], at: usize) -> u32
    requires { at + 4 ≤ length bytes.now }
    ensures { result ≡ number_in w32 bytes.now at }
{
    u32::from_be_bytes([bytes[at], bytes[at + 1], bytes[at + 2], bytes[at + 3]])
}

// The shape in a head.
fn shape_at(bytes: &[u8]) -> Shape
    requires { length bytes.now ≡ LOG_HEAD_SIZE }
    ensures { result ≡ shape_in bytes.now }
{
    Shape {
        blocks: number_at(bytes, BLOCKS_AT),
        extent: number_at(bytes, EXTENT_AT),
        undo: number_at(bytes, UNDO_AT),
    }
}

// What a head says, whose gate is open.
fn shape_of(bytes: &[u8]) -> Result<Shape, WrongByte>
    requires { length bytes.now ≡ LOG_HEAD_SIZE }
    ensures { result ≡ shape_found bytes.now }
{
    match first_wrong(bytes, 1, &HEAD_NAME) {
        Some(wrong) => return Err(wrong),
        None => {}
    }
    let shape = shape_at(bytes);
    match wrong_number(bytes, &shape) {
        Some(wrong) => return Err(wrong),
        None => {}
    }
    match first_wrong(bytes, ZEROS_AT, &[0; HEAD_ZEROS]) {
        Some(wrong) => Err(wrong),
        None => Ok(shape),
    }
}

// What the head of the log says.
#[tactic(auto, using(disk_model::proofs::Going::untouched_call))]
fn head_of<D: Disk>(disk: &mut D) -> Result<Shape, FrameFault>
    ensures found { D.meaning.told disk.old → IsHeadFound (D.meaning.files disk.old).log_bytes result }
    ensures cause { Causes D.meaning disk.old disk.new (IsErrOf result FrameFault.DeviceFault) }
    ensures untouched { Untouched D.meaning disk.old disk.new }
{
    let mut bytes = [0u8; LOG_HEAD_SIZE];
    let Ok(count) = disk.read(File::Log, 0, &mut bytes) else {
        return Err(FrameFault::DeviceFault);
    };
    if count < LOG_HEAD_SIZE || bytes[0] != 1 {
        return Err(FrameFault::NotOpen);
    }
    match shape_of(&bytes) {
        Ok(shape) => Ok(shape),
        Err(WrongByte { offset, seen }) => Err(FrameFault::BadFrame { offset, seen }),
    }
}

/// What the head of the log says. On the log of a store it is the store's shape. `NotOpen` comes exactly where the log
/// has fewer than 64 bytes or its first byte isn't 1, `BadFrame` for a wrong name, a number out of its range, or a byte
/// that should be zero.
pub fn read_shape<D: Disk>(disk: &mut D) -> Result<Shape, FrameFault>
    ensures found { D.meaning.told disk.old → IsHeadFound (D.meaning.files disk.old).log_bytes result }
    ensures whole { (shape : Shape) (groups : List (List ℕ)) → D.meaning.told disk.old → IsLog shape groups (D.meaning.files disk.old).log_bytes
        → Answers result (λ answer. answer ≡ shape) }
    ensures cause { Causes D.meaning disk.old disk.new (IsErrOf result FrameFault.DeviceFault) }
    ensures untouched { Untouched D.meaning disk.old disk.new }
{
    head_of(disk)
}

// Closes the head's gate where the log has no whole head. In a longer log that isn't formatted it is closed already.
fn close_head<D: Disk>(disk: &mut D) -> Result<(), FrameFault>
    ensures any_moment { IsSettled D.meaning disk.old Log → is_formatted (D.meaning.files disk.old).log_bytes ≡ false
        → Leaves D.meaning disk.old disk.new (OnlyFile D.meaning disk.old Log (λ (bytes : List ℕ). is_formatted bytes ≡ false)) }
    ensures closed { IsSettled D.meaning disk.old Log → is_formatted (D.meaning.files disk.old).log_bytes ≡ false
        → OnOk result (Settles D.meaning disk.old disk.new IsClosed) }
    ensures cause { Causes D.meaning disk.old disk.new (IsErr result) }
    ensures only { IfErr result (λ e. e ≡ FrameFault.DeviceFault) }
    ensures told { D.meaning.told disk.new ↔ D.meaning.told disk.old }
    ensures reads { D.meaning.log_reads disk.new ≡ D.meaning.log_reads disk.old }
{
    let len = disk.len(File::Log)?;
    if len < LOG_HEAD_SIZE as u64 {
        write_and_sync(disk, File::Log, 0, &[0])?;
    }
    Ok(())
}

/// Makes the empty log of a store, on a log that isn't formatted. At any moment of the call a crash leaves a log that
/// isn't formatted, or the empty one, and the data file as before.
pub fn make_head<D: Disk>(disk: &mut D, shape: &Shape) -> Result<(), FrameFault>
    requires { is_shape shape.now ≡ true }
    ensures any_moment { IsSettled D.meaning disk.old Log → is_formatted (D.meaning.files disk.old).log_bytes ≡ false
        → Leaves D.meaning disk.old disk.new (OnlyFile D.meaning disk.old Log (EmptyOrNone shape.now)) }
    ensures made { IsSettled D.meaning disk.old Log → is_formatted (D.meaning.files disk.old).log_bytes ≡ false
        → OnOk result (Leads D.meaning disk.old disk.new shape.now [] FIRST_GATE) }
    ensures cause { Causes D.meaning disk.old disk.new (IsErr result) }
    ensures only { IfErr result (λ e. e ≡ FrameFault.DeviceFault) }
    ensures told { D.meaning.told disk.new ↔ D.meaning.told disk.old }
    ensures reads { D.meaning.log_reads disk.new ≡ D.meaning.log_reads disk.old }
{
    close_head(disk)?;
    write_and_sync(disk, File::Log, 1, &head_bytes(shape))?;
    write_and_sync(disk, File::Log, 0, &[1])?;
    Ok(())
}
