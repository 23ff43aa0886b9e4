//! What a fault line means, in a sentence for whoever reads it on a terminal.
use std::io::{self, Write};

// How many bytes of a line's end are kept. Each of `SENTENCES` needs fewer.
const KEPT: usize = 32;

/// A writer that keeps how the last fault line ended. Indented lines below it say more of it, and don't count.
#[derive(Drop)]
pub struct Told<E> {
    err: E,
    end: [u8; KEPT],
    // The next byte begins another line.
    is_whole: bool,
    is_indented: bool,
}

impl<E: Write> Told<E> {
    pub fn new(err: E) -> Self {
        Told {
            err,
            end: [0; KEPT],
            is_whole: true,
            is_indented: false,
        }
    }

    fn note(&mut self, bytes: &[u8]) {
        for &byte in bytes {
            if self.is_whole {
                self.is_indented = byte == b' ';
            }
            if self.is_whole && !self.is_indented {
                self.end = [0; KEPT];
            }
            self.is_whole = byte == b'\n';
            if !self.is_whole && !self.is_indented {
                self.end.copy_within(1..KEPT, 0);
                self.end[KEPT - 1] = byte;
            }
        }
    }

    /// By the last fault line the system refused a file or an address.
    pub fn is_refusal(&self) -> bool {
        self.ends_with(": cannot open")
            || self.ends_with(": cannot bind")
            || self.ends_with(": cannot connect")
    }

    /// What the last fault line means, if that isn't plain. `of_journal`: its row counts as a journal's, not as a list's.
    pub fn sentence(&self, of_journal: bool) -> Option<&'static str> {
        for k in 0..SENTENCES.len() {
            let (scope, words, sentence) = SENTENCES[k];
            if scope.has(of_journal) && self.ends_with(words) {
                return Some(sentence);
            }
        }
        None
    }

    fn ends_with(&self, words: &str) -> bool {
        self.end.ends_with(words.as_bytes())
    }
}

#[derive(Clone, Copy)]
enum Scope {
    Anywhere,
    /// In lists and catalogues.
    Lists,
    Journals,
}

impl Scope {
    fn has(self, of_journal: bool) -> bool {
        match self {
            Scope::Anywhere => true,
            Scope::Lists => !of_journal,
            Scope::Journals => of_journal,
        }
    }
}

// How lines end, and what that means; the first that fits counts.
static SENTENCES: [(Scope, &'static str, &'static str); 15] = [
    (
        Scope::Lists,
        ": row 1: columns",
        "a row is ID or ID,START,DURATION, in a catalogue ID,LENGTH: is this a header row, or has it a column of titles?",
    ),
    (
        Scope::Lists,
        ": columns",
        "a row is ID or ID,START,DURATION, in a catalogue ID,LENGTH: has it a column of titles?",
    ),
    (
        Scope::Lists,
        ": row 1: time",
        "a time is HH:MM:SS:FF, at 30df HH:MM:SS;FF, and there is no header row: does --rate fit?",
    ),
    (
        Scope::Lists,
        ": time",
        "a time is HH:MM:SS:FF, at 30df HH:MM:SS;FF: does --rate fit?",
    ),
    (
        Scope::Lists,
        ": id",
        "an ID has one to eight ASCII characters, and no space around it",
    ),
    (Scope::Lists, ": twice", "a catalogue names each clip once"),
    (
        Scope::Journals,
        ": limit",
        "the run had another --limit, as one that was begun without --prompt (3) or with it (10): give what it was begun with",
    ),
    (
        Scope::Journals,
        ": mode",
        "the run was begun with --confirm, or this one is: give what it was begun with",
    ),
    (
        Scope::Anywhere,
        "panel address",
        "a page is shown to this machine alone: give IPv4:PORT, as 127.0.0.1:7480",
    ),
    (
        Scope::Anywhere,
        "vdcp: name",
        "a channel's name has 1 to 64 bytes, and no control characters",
    ),
    (
        Scope::Anywhere,
        ": address",
        "give IPv4:PORT, as 127.0.0.1:7400; names aren't looked up",
    ),
    (
        Scope::Anywhere,
        ": exists",
        "name another file; a run goes on from its journal with --resume",
    ),
    (
        Scope::Anywhere,
        ": write",
        "is the disk full, or was the file removed?",
    ),
    (
        Scope::Anywhere,
        "never answered",
        "connected, but nothing answers: does another automation drive the port, or is its --unit another?",
    ),
    (
        Scope::Anywhere,
        "port not empty",
        "something is cued at the port, or plays there: stop that first, or leave --ask out",
    ),
];

impl<E: Write> Write for Told<E> {
    fn write(&mut self, bytes: &[u8]) -> io::Result<usize> {
        let count = self.err.write(bytes)?;
        self.note(&bytes[..count]);
        Ok(count)
    }

    fn flush(&mut self) -> io::Result<()> {
        self.err.flush()
    }
}
