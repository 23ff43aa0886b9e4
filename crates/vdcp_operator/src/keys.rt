//! A reader of what is typed that never blocks.
use mio::Interest;
use std::io::{self, Read};
use std::net::Net;
use std::os::fd::AsRawFd;
use vdcp_log::Readiness;

/// While nothing has been typed a read fails with `WouldBlock`. (A file always has its bytes, or its end.)
#[derive(Drop)]
pub struct Keys<I> {
    reader: I,
    // None if no read waits.
    news: Option<Readiness>,
}

impl<I: Read + AsRawFd> Keys<I> {
    pub fn new<R: Net + AllocGlobal>(rt: &R, reader: I) -> Self {
        let news = Readiness::of(rt, reader.as_raw_fd(), Interest::READABLE).ok();
        Keys { reader, news }
    }
}

impl<I: Read + AsRawFd> Read for Keys<I> {
    ghost remaining = { λ keys. I.remaining keys.reader };

    fn read(&mut self, buffer: &mut [u8]) -> io::Result<usize> {
        let descriptor = self.reader.as_raw_fd();
        if let Some(news) = &mut self.news {
            news.test(descriptor)?;
        }
        self.reader.read(buffer)
    }
}
