//! What a wire needs of its connection.
use std::io::{self, Read, Write};
use std::net::OpenStream;

/// A connection whose two ways are apart: a read leaves what was written, and a write what reads will give. Each stream
/// that reads and writes is one, whose bytes no contract names.
pub trait Duplex: OpenStream {
    ghost use Rattle.std.specs.Io.KnownBytes.{Keeps, ReadConsumes, WriteAppends};
    ghost use Rattle.std.specs.Io.{ReadsAtMost, WritesAtMost};
    ghost use Rattle.std.specs.Prelude.{List, ℕ, Option, None};

    /// What reads will give from here on, if it is known.
    ghost ahead: { Self → Option (List ℕ) } = { λ _. None };

    /// What was written, if it is known.
    ghost written: { Self → Option (List ℕ) } = { λ _. None };

    fn read_some(&mut self, buffer: &mut [u8]) -> io::Result<usize>
        ensures bound { ReadsAtMost result buffer.new }
        ensures bytes { ReadConsumes (ahead self.old) (ahead self.new) result buffer.new }
        ensures apart { Keeps (written self.old) (written self.new) };

    fn write_some(&mut self, bytes: &[u8]) -> io::Result<usize>
        ensures bound { WritesAtMost result bytes.now }
        ensures bytes { WriteAppends (written self.old) (written self.new) result bytes.now }
        ensures apart { Keeps (ahead self.old) (ahead self.new) };
}

impl<S: Read + Write + OpenStream> Duplex for S {
    fn read_some(&mut self, buffer: &mut [u8]) -> io::Result<usize> {
        self.read(buffer)
    }

    fn write_some(&mut self, bytes: &[u8]) -> io::Result<usize> {
        self.write(bytes)
    }
}
