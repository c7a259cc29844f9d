// The counts of a table's blocks.
ghost use Rattle.std.specs.Prelude.{◌≡◌, ◌≤◌, ◌^◌, ◌-◌, cond, eqb};
ghost use Rattle.seg_words.specs.Types.{class_code};
ghost use Rattle.space_usage.specs.Counting.{AreAtMost, with_code};

use history_text::Usage;
use seg_base::{Class, class_code};
use segment_read::Segment;

/// One for a block that passes, else none.
pub fn one_if(passes: bool) -> u32
    ensures value { result ≡ cond passes 1 0 }
    ensures most { result ≤ 1 }
{
    u32::from(passes)
}

/// One for a block with the code of this class, else none.
fn one_of(code: u8, class: Class) -> u32
    ensures value { result ≡ cond (eqb code (class_code class)) 1 0 }
    ensures most { result ≤ 1 }
{
    one_if(code == class_code(class))
}

/// No block yet.
pub fn none_of(segment: &Segment) -> Usage
    ensures { result ≡ record { unformatted = 0; fs1 = 0; fs2 = 0; fs3 = 0; fs4 = 0; full = 0; low = segment.now.low; high = segment.now.high; extents = segment.now.extents } }
{
    Usage {
        unformatted: 0,
        fs1: 0,
        fs2: 0,
        fs3: 0,
        fs4: 0,
        full: 0,
        low: segment.low,
        high: segment.high,
        extents: segment.extents,
    }
}

/// One more block, with this code.
pub fn with_code(usage: &Usage, code: u8) -> Usage
    requires { AreAtMost (2 ^ 32 - 2) usage.now }
    ensures { result ≡ with_code usage.now code }
{
    Usage {
        unformatted: usage.unformatted + one_of(code, Class::Unformatted),
        fs1: usage.fs1 + one_of(code, Class::Fs1),
        fs2: usage.fs2 + one_of(code, Class::Fs2),
        fs3: usage.fs3 + one_of(code, Class::Fs3),
        fs4: usage.fs4 + one_of(code, Class::Fs4),
        full: usage.full + one_of(code, Class::Full),
        low: usage.low,
        high: usage.high,
        extents: usage.extents,
    }
}
