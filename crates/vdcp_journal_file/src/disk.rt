//! What a journal's file does: bytes are appended, made safe and read again, and what is torn is cut off.
ghost use Rattle.std.specs.Io.KnownBytes.{Appends, WriteAppends};
ghost use Rattle.std.specs.Io.{WritesAtMost};
ghost use Rattle.std.specs.Prelude.{◌≡◌, None, OnErr, OnOk, Some, if◌then◌else◌, nat_lt};
ghost use Rattle.vdcp_list.specs.Asrun.{AppendsBeginning};
ghost use Rattle.vdcp_journal_file.specs.Disks.{Spills};

use std::fs::{self, File, OpenFile};
use std::io::{self, ErrorKind, Read, Seek, SeekFrom, Write};
use std::os::unix::fs::MetadataExt;
use std::rt::Files;

/// A file that grows. What was synced is safe, also when the power fails; of what was written since, a beginning may be.
///
/// Each file is one, though no contract names its bytes.
pub trait Disk {
    ghost use Rattle.std.specs.Io.KnownBytes.{Keeps, WriteAppends};
    ghost use Rattle.std.specs.Io.{WritesAtMost};
    ghost use Rattle.std.specs.Prelude.{◌≡◌, ℕ, Bool, List, None, OnErr, OnOk, Option};
    ghost use Rattle.vdcp_journal_file.specs.Disks.{Spills};

    ghost written: { Self → Option (List ℕ) } = { λ _. None };

    /// The written bytes that are safe, if they are known.
    ghost safe: { Self → Option (List ℕ) } = { λ _. None };

    /// What `is_named` may answer for a name.
    ghost owns: { Self → List ℕ → Bool → Type 0 } = { λ _ _ _. Unit {0} };

    /// Appends the first of these bytes, and gives how many, as `Write` does.
    fn write_some(&mut self, bytes: &[u8]) -> io::Result<usize>
        ensures bound { WritesAtMost result bytes.now }
        ensures bytes { WriteAppends (written self.old) (written self.new) result bytes.now }
        ensures spills { Spills (safe self.old) (safe self.new) (written self.new) };

    fn sync(&mut self) -> io::Result<()>
        ensures bytes { Keeps (written self.old) (written self.new) }
        ensures synced { OnOk result (safe self.new ≡ written self.new) }
        ensures spills { OnErr result (Spills (safe self.old) (safe self.new) (written self.new)) };

    /// Whether the name by which it was opened is still its own. If the file was removed or moved, or another took the name,
    /// nobody finds what is written.
    fn is_named<R: Files>(&self, rt: &R, name: &str) -> bool
        ensures { owns self.now name.now result };
}

impl<F: Write + OpenFile> Disk for F {
    fn write_some(&mut self, bytes: &[u8]) -> io::Result<usize> {
        self.write(bytes)
    }

    fn sync(&mut self) -> io::Result<()> {
        self.sync_data()
    }

    fn is_named<R: Files>(&self, rt: &R, name: &str) -> bool {
        let Ok(file) = self.metadata() else {
            return true;
        };
        // (what isn't on a system's disk has no number)
        if file.ino() == 0 {
            return true;
        }
        match fs::metadata(rt, name) {
            Ok(found) => file.nlink() > 0 && found.dev() == file.dev() && found.ino() == file.ino(),
            Err(error) => !matches!(error.kind(), ErrorKind::NotFound | ErrorKind::NotADirectory),
        }
    }
}

pub(crate) trait ReadableDisk: Disk {
    ghost use Rattle.std.specs.Io.KnownBytes.{Keeps};
    ghost use Rattle.std.specs.Prelude.{◌≡◌, IfOk, IfSome, OnOk, length, option_map, take};

    type Reader: Read + Drop;

    fn reader(&self) -> io::Result<Self::Reader>
        ensures { IfOk result (λ reader. Self.Reader.remaining reader ≡ Self.written self.now) };

    fn size(&self) -> io::Result<u64>
        ensures { IfOk result (λ size. IfSome (Self.written self.now) (λ bytes. size ≡ length bytes)) };

    fn cut_after(&mut self, size: u64) -> io::Result<()>
        ensures { OnOk result (Keeps (option_map (take size) (Self.written self.old)) (Self.written self.new)) };
}

impl ReadableDisk for File {
    type Reader = File;

    fn reader(&self) -> io::Result<File> {
        let mut reader = self.try_clone()?;
        reader.seek(SeekFrom::Start(0))?;
        Ok(reader)
    }

    fn size(&self) -> io::Result<u64> {
        Ok(self.metadata()?.len())
    }

    fn cut_after(&mut self, size: u64) -> io::Result<()> {
        match size_left(size, self.size()?) {
            Some(left) => self.set_len(left),
            None => Ok(()),
        }
    }
}

fn size_left(size: u64, all: u64) -> Option<u64>
    ensures { result ≡ (if nat_lt size all then Some size else None) }
{
    if size < all { Some(size) } else { None }
}

/// Appends bytes and makes all safe. If that fails, a beginning of them may be there.
pub fn append_safely<D: Disk>(disk: &mut D, bytes: &[u8]) -> io::Result<()>
    ensures all { OnOk result (Appends (D.written disk.old) (D.safe disk.new) bytes.now) }
    ensures synced { OnOk result (D.safe disk.new ≡ D.written disk.new) }
    ensures beginning { D.safe disk.old ≡ D.written disk.old →
        OnErr result (AppendsBeginning (D.safe disk.old) (D.safe disk.new) bytes.now) }
{
    let mut at = 0;
    'writes: for _ in 0..u32::MAX {
        if at == bytes.len() {
            return disk.sync();
        }
        match disk.write_some(&bytes[at..]) {
            Ok(n) if n > 0 => at += n,
            Err(error) if error.kind() == ErrorKind::Interrupted => continue,
            Ok(_) => return Err(io::Error::from(ErrorKind::WriteZero)),
            Err(error) => return Err(error),
        }
    }
    Err(io::Error::from(ErrorKind::TimedOut))
}
