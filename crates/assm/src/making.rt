// A store made, and its line.
ghost use Rattle.std.specs.Prelude.{◌≡◌, ◌+◌, ◌-◌, ◌/◌, true, IfOk};
ghost use Rattle.seg_words.specs.Types.{is_shape, Rose};
ghost use Rattle.disk_model.specs.Types.{Causes, Untouched};
ghost use Rattle.log_frame.specs.Types.{is_formatted};
ghost use Rattle.assm.specs.Top.{FormatTells, shape_text};

use crate::status::Status;
use disk_model::Disk;
use recovery::format;
use seg_base::{NoMemory, OWN_BLOCKS, Shape};
use std::alloc::Global;
use text_port::{Sink, put, put_number, write_all};

/// The line of a store that was made.
fn shape_line(alloc: Global, shape: &Shape) -> Result<Vec<u8>, NoMemory>
    requires { is_shape shape.now ≡ true }
    ensures { IfOk result (λ text. text.items ≡ shape_text shape.now) }
{
    let mut out = Vec::new(alloc);
    put(&mut out, b"formatted ")?;
    put_number(&mut out, shape.blocks as u64)?;
    put(&mut out, b" ")?;
    put_number(&mut out, shape.extent as u64)?;
    put(&mut out, b" ")?;
    put_number(&mut out, shape.undo as u64)?;
    put(&mut out, b" extents ")?;
    put_number(&mut out, extents(shape) as u64)?;
    put(&mut out, b"\n")?;
    Ok(out)
}

/// The number of whole extents.
#[tactic(auto, using(std::proofs::lemmas::Bool::Decides::nat_tests))]
fn extents(shape: &Shape) -> u32
    requires { is_shape shape.now ≡ true }
    ensures { result ≡ (shape.now.blocks - (OWN_BLOCKS + shape.now.undo)) / shape.now.extent }
{
    (shape.blocks - (OWN_BLOCKS + shape.undo)) / shape.extent
}

/// Makes a store, and prints its line.
pub fn format_store<D: Disk, K: Sink>(
    alloc: Global,
    disk: &mut D,
    shape: &Shape,
    sink: &mut K,
) -> Status
    requires { is_shape shape.now ≡ true }
    ensures tells { FormatTells D.meaning disk.old disk.new (K.written sink.old) (K.written sink.new) shape.now result }
    ensures device_fault { Causes D.meaning disk.old disk.new (result ≡ Status.DeviceFault) }
    ensures write_fault { result ≡ Status.WriteFault → Rose (K.fault_count sink.old) (K.fault_count sink.new) }
    ensures kept { D.meaning.told disk.old → is_formatted (D.meaning.files disk.old).log_bytes ≡ true → Untouched D.meaning disk.old disk.new }
{
    let Ok(text) = shape_line(alloc, shape) else {
        return Status::NoMemory;
    };
    match format(disk, *shape) {
        Ok(()) => {}
        Err(fault) => return Status::from(fault),
    }
    match write_all(sink, &text) {
        Ok(()) => Status::Done,
        Err(_) => Status::WriteFault,
    }
}
