// How full a block is, as the bitmap blocks say it.
ghost use Rattle.std.specs.Prelude.{◌≡◌, ◌≤◌};
ghost use Rattle.seg_base.specs.Classes.{class_of, class_code, class_from};

use crate::limit::{BLOCK_ROOM, MOST_PCTFREE};

/// A block's free class: unformatted, full, or a quarter of free space, Fs1 for 0 to 25 % up to Fs4.
#[derive(Clone, Copy, Debug, PartialEq, Eq, Drop)]
pub enum Class {
    Unformatted,
    Full,
    Fs1,
    Fs2,
    Fs3,
    Fs4,
}

/// The class of a formatted block with so many bytes of its room free, in a table with this PCTFREE.
pub fn class_of(free: u16, pctfree: u8) -> Class
    requires free { free ≤ BLOCK_ROOM }
    requires pctfree { pctfree ≤ MOST_PCTFREE }
    ensures { result ≡ class_of free pctfree }
{
    let free = u32::from(free);
    if free * 100 < u32::from(pctfree) * BLOCK_ROOM {
        return Class::Full;
    }
    match 4 * free / BLOCK_ROOM {
        0 => Class::Fs1,
        1 => Class::Fs2,
        2 => Class::Fs3,
        _ => Class::Fs4,
    }
}

/// The code of a class in a bitmap block.
pub fn class_code(class: Class) -> u8
    ensures code { result ≡ class_code class }
    ensures range { result ≤ 5 }
{
    match class {
        Class::Unformatted => 0,
        Class::Full => 1,
        Class::Fs1 => 2,
        Class::Fs2 => 3,
        Class::Fs3 => 4,
        Class::Fs4 => 5,
    }
}

/// The class of a code, None exactly above 5.
pub fn class_from(code: u8) -> Option<Class>
    ensures { result ≡ class_from code }
{
    match code {
        0 => Some(Class::Unformatted),
        1 => Some(Class::Full),
        2 => Some(Class::Fs1),
        3 => Some(Class::Fs2),
        4 => Some(Class::Fs3),
        5 => Some(Class::Fs4),
        _ => None,
    }
}
