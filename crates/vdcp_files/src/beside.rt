//! Whether two names are of one file, and how an older file is kept beside a new one.
use std::fs;
use std::io::{self, ErrorKind};
use std::os::unix::fs::MetadataExt;
use std::rt::Files;

/// Whether both names are of one file, by another path or a link.
pub fn is_same_file<R: Files>(rt: &R, name: &str, other: &str) -> bool {
    let (Ok(file), Ok(other)) = (fs::metadata(rt, name), fs::metadata(rt, other)) else {
        return false;
    };
    file.is_file() && file.dev() == other.dev() && file.ino() == other.ino()
}

/// Names a file `NAME.~N~`, too, with the first free N from 1, and says so; `None` if it has no other name now.
pub fn keep_older<R: Files + AllocGlobal>(rt: &R, name: &str) -> io::Result<Option<String>> {
    for number in 1..u32::MAX {
        let kept = format!(in rt.alloc(); "{name}.~{number}~")?;
        match fs::hard_link(rt, name, kept.as_str()) {
            Ok(()) => return Ok(Some(kept)),
            Err(error) if error.kind() == ErrorKind::AlreadyExists => {}
            Err(_) => {
                // If a file can't have two names it changes its own, which for a moment no file has.
                fs::rename(rt, name, kept.as_str())?;
                return Ok(None);
            }
        }
    }
    Err(io::Error::from(ErrorKind::AlreadyExists))
}
