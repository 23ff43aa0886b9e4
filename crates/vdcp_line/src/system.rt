//! The system as subcommands have it, which remembers what it refused last, and why.
use std::alloc::{Alloc, Allocator, Global};
use std::cell::Cell;
use std::fs::{File, Metadata, OpenOptions};
use std::io::{self, ErrorKind, Write};
use std::net::{Net, SocketAddr};
use std::path::PathBuf;
use std::rt::{Clock, Files};
use std::time::Duration;
use vdcp_text::NameText;

#[derive(Drop)]
pub struct System<'a> {
    pub rt: &'a HostRuntime,
    refused: Cell<Option<Refusal>>,
}

#[derive(Drop)]
struct Refusal {
    what: Refused,
    reason: io::Error,
}

#[derive(Drop)]
enum Refused {
    Address(SocketAddr),
    File(String),
}

impl<'a> System<'a> {
    pub fn new(rt: &'a HostRuntime) -> Self {
        System {
            rt,
            refused: Cell::new(None),
        }
    }

    /// Tells what the system refused and why, if it refused the last address or file.
    pub fn explain<E: Write>(&self, err: &mut E) {
        let Some(Refusal { what, reason }) = self.refused.replace(None) else {
            return;
        };
        // (a reason that can't be written is left out: the fault was reported)
        let _ = match what {
            Refused::Address(address) => writeln!(err, "  {address}: {reason}"),
            Refused::File(name) => writeln!(err, "  {}: {reason}", NameText(name.as_str())),
        };
    }

    fn remember(&self, what: Refused, reason: io::Error) {
        if reason.kind() != ErrorKind::OutOfMemory {
            self.refused.set(Some(Refusal { what, reason }));
        }
    }

    fn remember_address<T>(&self, address: SocketAddr, done: io::Result<T>) -> io::Result<T> {
        match &done {
            Ok(_) => self.refused.set(None),
            Err(reason) => self.remember(Refused::Address(address), *reason),
        }
        done
    }
}

impl Net for System<'_> {
    type Stream = <HostRuntime as Net>::Stream;

    type Listener = <HostRuntime as Net>::Listener;

    fn bind(&self, address: SocketAddr) -> io::Result<Self::Listener> {
        self.remember_address(address, self.rt.bind(address))
    }

    fn connect(&self, address: SocketAddr) -> io::Result<Self::Stream> {
        self.remember_address(address, self.rt.connect(address))
    }

    fn connect_timeout(&self, address: SocketAddr, within: Duration) -> io::Result<Self::Stream> {
        self.remember_address(address, self.rt.connect_timeout(address, within))
    }
}

// What no subcommand calls and the trait doesn't ask for is left out.
impl Files for System<'_> {
    type File = File;

    type Dir = <HostRuntime as Files>::Dir;

    fn open_file(&self, how: &OpenOptions, path: &str) -> io::Result<File> {
        let opened = self.rt.open_file(how, path);
        self.refused.set(None);
        if let Err(reason) = &opened {
            if let Ok(name) = String::from_str(self.rt.alloc(), path) {
                self.remember(Refused::File(name), *reason);
            }
        }
        opened
    }

    fn open_dir(&self, path: &str) -> io::Result<Self::Dir> {
        self.rt.open_dir(path)
    }

    fn metadata(&self, path: &str) -> io::Result<Metadata> {
        self.rt.metadata(path)
    }

    fn symlink_metadata(&self, path: &str) -> io::Result<Metadata> {
        self.rt.symlink_metadata(path)
    }

    fn copy(&self, from: &str, to: &str) -> io::Result<u64> {
        self.rt.copy(from, to)
    }

    fn rename(&self, from: &str, to: &str) -> io::Result<()> {
        self.rt.rename(from, to)
    }

    fn remove_file(&self, path: &str) -> io::Result<()> {
        self.rt.remove_file(path)
    }

    fn create_dir(&self, path: &str) -> io::Result<()> {
        self.rt.create_dir(path)
    }

    fn remove_dir(&self, path: &str) -> io::Result<()> {
        self.rt.remove_dir(path)
    }

    fn remove_dir_all<B: Allocator>(&self, alloc: B, path: &str) -> io::Result<()> {
        self.rt.remove_dir_all(alloc, path)
    }

    fn canonicalize<B: Allocator>(&self, alloc: B, path: &str) -> io::Result<PathBuf<B>> {
        self.rt.canonicalize(alloc, path)
    }

    fn hard_link(&self, original: &str, link: &str) -> io::Result<()> {
        self.rt.hard_link(original, link)
    }
}

impl Clock for System<'_> {
    fn monotonic(&self) -> io::Result<Duration> {
        self.rt.monotonic()
    }

    fn since_1970(&self) -> io::Result<Duration> {
        self.rt.since_1970()
    }

    fn sleep(&self, duration: Duration) {
        self.rt.sleep(duration)
    }
}

impl Alloc for System<'_> {
    type A = Global;

    fn alloc(&self) -> Global {
        self.rt.alloc()
    }
}
