//! A disk as a store sees it: what a read gives, and what a power cut may leave.
ghost use Rattle.std.specs.Prelude.{◌≡◌, ◌+◌, ◌≤◌, true, false, length, take, drop, IsTrue, IfOk, OnOk, IsErr, is_ok};
ghost use Rattle.std.specs.Prelude.{if◌then◌else◌};
ghost use Rattle.sed_outside.specs.Cause.{HasCause};
ghost use Rattle.disk_model.specs.Disk.{Meaning, Elapses, Attaches, Keeps, Writes, Syncs, MarksUp, SyncsUp, IsDisk};
ghost use Rattle.disk_model.specs.Disk.{longest_name, largest_store};
ghost use Rattle.sed_outside.specs.Counts.{one_more};

use thiserror::Error;

/// Why a call of a disk was not done.
#[derive(Clone, Copy, Debug, PartialEq, Eq, Error)]
pub enum DiskFault {
    /// The outside failed, and the count of faults rose or stands at its last value.
    #[error("the disk failed")]
    Failed,
}

/// One file on a disk. A power cut may come at any moment, within a call too.
///
/// Between two syncs that succeed each range that was written, and the part past the old end, may hold any bytes after
/// a crash, and the bytes outside stay. After a sync that succeeds a crash leaves what a read gives, until the next
/// write. Where the disk doesn't tell its content, no clause says what a read gives or what a crash may leave.
pub trait Disk {
    /// What the disk means now. Which of its meanings are told is changed by no call.
    ghost meaning: { Self → Meaning };

    /// Opens the file of that name, or makes an empty one. It changes neither what a read gives nor what a crash may
    /// leave, where these are told.
    fn attach(&mut self, name: &str) -> Result<(), DiskFault>
        requires { length name.now ≤ longest_name }
        ensures attached { Attaches (meaning self.old).calls (meaning self.old).attached (meaning self.new).attached
            name.now }
        ensures keeps { IsTrue (meaning self.old).tells → Keeps (meaning self.old) (meaning self.new) }
        ensures time { Elapses (meaning self.old) (meaning self.new) }
        ensures marks { MarksUp (meaning self.old) (meaning self.new) 0 }
        ensures syncs { SyncsUp (meaning self.old) (meaning self.new) 0 }
        ensures unmarked { OnOk result ((meaning self.new).is_marked ≡ false) }
        ensures cause { HasCause (meaning self.old).faults (meaning self.new).faults (IsErr result) }
        ensures calls { (meaning self.new).calls ≡ one_more (meaning self.old).calls };

    /// The size of the file, in bytes.
    fn size(&mut self) -> Result<u64, DiskFault>
        ensures size { IsTrue (meaning self.old).tells → IfOk result (λ n. n ≡ length (meaning self.old).content) }
        ensures keeps { IsTrue (meaning self.old).tells → Keeps (meaning self.old) (meaning self.new) }
        ensures attached { (meaning self.new).attached ≡ (meaning self.old).attached }
        ensures time { Elapses (meaning self.old) (meaning self.new) }
        ensures marks { MarksUp (meaning self.old) (meaning self.new) 0 }
        ensures syncs { SyncsUp (meaning self.old) (meaning self.new) 0 }
        ensures unmarked { OnOk result ((meaning self.new).is_marked ≡ false) }
        ensures cause { HasCause (meaning self.old).faults (meaning self.new).faults (IsErr result) }
        ensures calls { (meaning self.new).calls ≡ one_more (meaning self.old).calls };

    /// Fills `into` with the bytes from that place on. After a fault it may hold any bytes. Where the content is not
    /// told, a read past the end fails.
    fn read(&mut self, at: u64, into: &mut [u8]) -> Result<(), DiskFault>
        requires { IsTrue (meaning self.old).tells → at + length into.old ≤ length (meaning self.old).content }
        ensures bytes { IsTrue (meaning self.old).tells
            → OnOk result (into.new ≡ take (length into.old) (drop at (meaning self.old).content)) }
        ensures keeps { IsTrue (meaning self.old).tells → Keeps (meaning self.old) (meaning self.new) }
        ensures attached { (meaning self.new).attached ≡ (meaning self.old).attached }
        ensures time { Elapses (meaning self.old) (meaning self.new) }
        ensures marks { MarksUp (meaning self.old) (meaning self.new) 0 }
        ensures syncs { SyncsUp (meaning self.old) (meaning self.new) 0 }
        ensures unmarked { OnOk result ((meaning self.new).is_marked ≡ false) }
        ensures cause { HasCause (meaning self.old).faults (meaning self.new).faults (IsErr result) }
        ensures calls { (meaning self.new).calls ≡ one_more (meaning self.old).calls };

    /// Writes the bytes at that place; the file grows where they pass its end. Until a sync a crash may leave any bytes
    /// in their range. A write that fails counts as written, and a read may then give any bytes there.
    fn write_at(&mut self, at: u64, bytes: &[u8]) -> Result<(), DiskFault>
        requires { at + length bytes.now ≤ largest_store }
        ensures writes { IsTrue (meaning self.old).tells
            → Writes at bytes.now result (meaning self.old) (meaning self.new) }
        ensures attached { (meaning self.new).attached ≡ (meaning self.old).attached }
        ensures time { Elapses (meaning self.old) (meaning self.new) }
        ensures marks { MarksUp (meaning self.old) (meaning self.new) 0 }
        ensures syncs { SyncsUp (meaning self.old) (meaning self.new) 0 }
        ensures unmarked { OnOk result ((meaning self.new).is_marked ≡ false) }
        ensures cause { HasCause (meaning self.old).faults (meaning self.new).faults (IsErr result) }
        ensures calls { (meaning self.new).calls ≡ one_more (meaning self.old).calls };

    /// Waits until all that was written is on the disk: then a crash leaves what a read gives, until the next write.
    fn sync(&mut self) -> Result<(), DiskFault>
        ensures durable { IsTrue (meaning self.old).tells → Syncs result (meaning self.old) (meaning self.new) }
        ensures attached { (meaning self.new).attached ≡ (meaning self.old).attached }
        ensures time { Elapses (meaning self.old) (meaning self.new) }
        ensures marks { MarksUp (meaning self.old) (meaning self.new) 0 }
        ensures syncs { SyncsUp (meaning self.old) (meaning self.new) (if is_ok result then 1 else 0) }
        ensures unmarked { OnOk result ((meaning self.new).is_marked ≡ false) }
        ensures cause { HasCause (meaning self.old).faults (meaning self.new).faults (IsErr result) }
        ensures calls { (meaning self.new).calls ≡ one_more (meaning self.old).calls };

    /// Marks that what is on the disk is acknowledged. It writes nothing, needs no room and never fails. Two marks
    /// with no other call between them are one.
    fn acknowledge(&mut self)
        ensures keeps { IsTrue (meaning self.old).tells → Keeps (meaning self.old) (meaning self.new) }
        ensures attached { (meaning self.new).attached ≡ (meaning self.old).attached }
        ensures time { Elapses (meaning self.old) (meaning self.new) }
        ensures marks { MarksUp (meaning self.old) (meaning self.new) (if (meaning self.old).is_marked then 0 else 1) }
        ensures syncs { SyncsUp (meaning self.old) (meaning self.new) 0 }
        ensures marked { IsTrue (meaning self.old).tells_marks → (meaning self.new).is_marked ≡ true }
        ensures faults { (meaning self.new).faults ≡ (meaning self.old).faults }
        ensures calls { (meaning self.new).calls ≡ one_more (meaning self.old).calls };

    /// What a read gives is one of the images that a crash now may leave.
    ghost is_disk: { (disk : Self) → IsDisk (meaning disk) };
}
