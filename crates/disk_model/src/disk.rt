// The two files of a store: what a read gives, and what a crash may leave.
ghost use Rattle.std.specs.Prelude.{◌≡◌, ◌⊎◌, ◌↔◌, ◌+◌, ◌-◌, ◌^◌, ◌<◌, ◌≤◌, ◌++◌, min, ℕ, length, take, drop, IfOk, OnOk, OnErr, IsErr};
ghost use Rattle.disk_model.specs.Files.{Files, content, put, written, TornFile, AreShort};
ghost use Rattle.disk_model.specs.Crash.{Meaning, Now, Elapses, SameImages, Causes, CountsRead, CanWrite};

use seg_base::Failed;

/// The data file holds the blocks, the log file the redo.
#[derive(Clone, Copy, Debug, PartialEq, Eq)]
pub enum File {
    Data,
    Log,
}

/// The disk of a store. Only `read` and `len` look, only `write_at` and `sync` change what a crash may leave.
///
/// An answer of `Failed` counts as a fault. The clock counts the calls that have returned, and a crash at a moment
/// comes after so many calls and before the next one has returned.
pub trait Disk {
    /// What it holds, its clock, what a crash may leave, and its counts.
    ghost meaning: { Meaning Self };

    /// The bytes from the offset on, as many as the buffer holds and the file has.
    fn read(&mut self, file: File, offset: u64, buf: &mut [u8]) -> Result<usize, Failed>
        ensures count { meaning.told self.old → IfOk result (λ n. n ≡ min (length buf.old) (length (content file (meaning.files self.old)) - offset)) }
        ensures bytes { meaning.told self.old → IfOk result (λ n. buf.new ≡ take n (drop offset (content file (meaning.files self.old))) ++ drop n buf.old) }
        ensures told { meaning.told self.new ↔ meaning.told self.old }
        ensures same { meaning.told self.old → meaning.files self.new ≡ meaning.files self.old }
        ensures crash { SameImages meaning self.old self.new }
        ensures time { Elapses meaning self.old self.new }
        ensures cause { Causes meaning self.old self.new (IsErr result) }
        ensures reads { meaning.told self.old → CountsRead file result (meaning.log_reads self.old) (meaning.log_reads self.new) }
        ensures later { meaning.log_reads self.old ≤ meaning.log_reads self.new }
        // At the clock's end it does nothing.
        ensures end { meaning.clock self.old ≡ 2 ^ 64 - 1 → IsErr result × (buf.new ≡ buf.old) × (meaning.log_reads self.new ≡ meaning.log_reads self.old) };

    /// Writes over what is there, and past the end; a gap holds zeros. Until a sync that succeeds, a crash may leave
    /// any bytes in the range and past the old end, and a length between the old one and the new, even where the
    /// write failed.
    fn write_at(&mut self, file: File, offset: u64, bytes: &[u8]) -> Result<(), Failed>
        ensures written { meaning.told self.old → OnOk result (meaning.files self.new ≡ put file (written (content file (meaning.files self.old)) offset bytes.now) (meaning.files self.old)) }
        ensures torn { meaning.told self.old → TornFile file offset (length bytes.now) (meaning.files self.old) (meaning.files self.new) }
        ensures told { meaning.told self.new ↔ meaning.told self.old }
        // No image but those that a torn write makes.
        ensures crash { (image : Files) → Now meaning self.new image → (was : Files) × Now meaning self.old was × TornFile file offset (length bytes.now) was image }
        // Each of those is one, and a write that failed takes none away.
        ensures kept { (image : Files) → Now meaning self.old image → Now meaning self.new image }
        ensures each { OnOk result ((was image : Files) → Now meaning self.old was → TornFile file offset (length bytes.now) was image → Now meaning self.new image) }
        // At the clock's end, and past the greatest length of a file, it does nothing.
        ensures can { OnOk result (CanWrite (meaning.clock self.old) offset (length bytes.now)) }
        ensures nothing { ¬ CanWrite (meaning.clock self.old) offset (length bytes.now) → IsErr result × SameImages meaning self.old self.new × (meaning.told self.old → meaning.files self.new ≡ meaning.files self.old) }
        ensures time { Elapses meaning self.old self.new }
        ensures cause { Causes meaning self.old self.new (IsErr result) }
        ensures reads { meaning.log_reads self.new ≡ meaning.log_reads self.old };

    /// The file's length.
    fn len(&mut self, file: File) -> Result<u64, Failed>
        ensures len { meaning.told self.old → IfOk result (λ n. n ≡ length (content file (meaning.files self.old))) }
        ensures told { meaning.told self.new ↔ meaning.told self.old }
        ensures same { meaning.told self.old → meaning.files self.new ≡ meaning.files self.old }
        ensures crash { SameImages meaning self.old self.new }
        ensures time { Elapses meaning self.old self.new }
        ensures cause { Causes meaning self.old self.new (IsErr result) }
        ensures reads { meaning.log_reads self.new ≡ meaning.log_reads self.old }
        ensures end { meaning.clock self.old ≡ 2 ^ 64 - 1 → IsErr result };

    /// At `Ok` a crash from then on leaves of this file what a read gives, and the other file's images stay.
    fn sync(&mut self, file: File) -> Result<(), Failed>
        ensures durable { meaning.told self.old → OnOk result ((image : Files) → Now meaning self.new image ↔ ((was : Files) × Now meaning self.old was × (image ≡ put file (content file (meaning.files self.old)) was))) }
        // One that failed makes no image that wasn't one before.
        ensures crash { (image : Files) → OnErr result (Now meaning self.new image → Now meaning self.old image) }
        ensures told { meaning.told self.new ↔ meaning.told self.old }
        ensures same { meaning.told self.old → meaning.files self.new ≡ meaning.files self.old }
        ensures time { Elapses meaning self.old self.new }
        ensures cause { Causes meaning self.old self.new (IsErr result) }
        ensures reads { meaning.log_reads self.new ≡ meaning.log_reads self.old }
        ensures end { meaning.clock self.old ≡ 2 ^ 64 - 1 → IsErr result × SameImages meaning self.old self.new };

    /// The clock: the number of reads, lengths, writes and syncs that have returned, and 2^64 - 1 at its end.
    fn moment(&self) -> u64
        ensures { result ≡ meaning.clock self.now };

    /// How often it has failed, and 2^64 - 1 at the count's end.
    fn faults(&self) -> u64
        ensures { result ≡ meaning.fault_count self.now };

    /// A disk as it reads is one of its images.
    ghost as_read: { (disk : Self) → meaning.told disk → meaning.crash_at disk (meaning.clock disk) (meaning.files disk) };

    /// The clock ends at 2^64 - 1.
    ghost in_time: { (disk : Self) → meaning.clock disk ≤ 2 ^ 64 - 1 };

    /// No file that a crash leaves is longer than 2^64 - 1 bytes.
    ghost short: { (disk : Self) (moment : ℕ) (image : Files) → meaning.crash_at disk moment image → AreShort image };
}
