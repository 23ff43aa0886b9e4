//! Lines that nobody reads.
use std::alloc::Global;
use std::io::{self, ErrorKind, Write};
use std::process::Abort;
use std::test::Fail;
use vdcp_log::Lines;

/// A writer that takes this many bytes, and then none until this many writes were refused.
#[derive(Drop)]
struct Unread<'a> {
    taken: &'a mut Vec<u8>,
    room: usize,
    refused: usize,
}

impl Write for Unread<'_> {
    fn write(&mut self, bytes: &[u8]) -> io::Result<usize> {
        if self.room == 0 && self.refused > 0 {
            self.refused -= 1;
            return Err(io::Error::from(ErrorKind::WouldBlock));
        }
        let count = if self.room == 0 {
            bytes.len()
        } else {
            bytes.len().min(self.room)
        };
        self.room = self.room.saturating_sub(count);
        self.taken.extend_from_slice(&bytes[..count])?;
        Ok(count)
    }

    fn flush(&mut self) -> io::Result<()> {
        Ok(())
    }
}

/// What goes out of a text that comes in pieces of this size, if the writer takes six bytes, and then none until this many
/// writes were refused.
fn written(alloc: Global, text: &[u8], size: usize, refused: usize) -> Result<Vec<u8>, Fail> {
    let mut taken = Vec::new(alloc);
    let mut out = Lines::new(Unread {
        taken: &mut taken,
        room: 6,
        refused,
    });
    for piece in text.chunks(size.max(1)) {
        out.write_all(piece)?;
    }
    drop(out);
    Ok(taken)
}

fn expect(rt: &impl Abort, refused: usize, seen: &[u8], expected: &[u8]) {
    assert_eq!(rt; seen, expected, "at {refused}");
}

const TEXT: &[u8] = b"one\n\ntwo\nthree\nfour\n";

// In which pieces the text comes, which doesn't matter, how many writes are refused, and what goes out: the line under way
// goes on, and how many were dropped stands where they would.
static WRITTEN: [(usize, usize, &[u8]); 7] = [
    (1, 0, TEXT),
    (2, 0, TEXT),
    (20, 1, TEXT),
    (1, 2, b"one\n\ntwo\ndropped 1\nfour\n"),
    (6, 2, b"one\n\ntwo\ndropped 1\nfour\n"),
    (4, 3, b"one\n\nt"),
    (20, 1000, b"one\n\nt"),
];

// A long line is whole if it is read, and otherwise its rest is left out.
#[test]
fn lines_that_nobody_reads_are_counted(rt: HostRuntime) -> Result<(), Fail> {
    let alloc = rt.alloc();
    for (size, refused, text) in WRITTEN.iter() {
        let taken = written(alloc, TEXT, *size, *refused)?;
        expect(&rt, *refused, taken.as_slice(), text);
    }
    for (refused, length) in [(0, 3000), (1, 1023)] {
        let mut long = vec![in alloc; b'x'; 3000]?;
        long.extend_from_slice(b"\nend\n")?;
        let mut whole = vec![in alloc; b'x'; length]?;
        whole.extend_from_slice(b"\nend\n")?;
        let taken = written(alloc, long.as_slice(), 7, refused)?;
        expect(&rt, refused, taken.as_slice(), whole.as_slice());
    }
    Ok(())
}
