//! A disk and a link that note what is asked of them.

use disk_model::{Disk, DiskFault};
use sed_outside::{Addr, Link, LinkFault, Polled};
use std::alloc::Global;

/// A disk or a link; how often a name was attached, or which ports were asked for; how many calls there were of the
/// disk, an attach among them; and of each mark how many of them came before it. What there is no memory for is left
/// out.
#[derive(Drop)]
pub struct Watched<T> {
    pub inner: T,
    pub asked: Vec<u16>,
    pub calls: usize,
    pub marks: Vec<usize>,
}

impl<T> Watched<T> {
    /// The disk or the link, of which nothing was asked yet.
    pub fn new(alloc: Global, inner: T) -> Watched<T> {
        Watched {
            inner,
            asked: Vec::new(alloc),
            calls: 0,
            marks: Vec::new(alloc),
        }
    }
}

impl<L: Link> Link for Watched<L> {
    ghost polls = { λ l. L.polls l.inner };

    ghost offered = { λ l. L.offered l.inner };

    ghost polled = { λ l. L.polled l.inner };

    ghost bound = { λ l. L.bound l.inner };

    ghost faults = { λ l. L.faults l.inner };

    fn bind(&mut self, port: u16) -> Result<(), LinkFault> {
        let _ = self.asked.push(port);
        self.inner.bind(port)
    }

    fn poll(&mut self, into: &mut [u8; 512]) -> Polled {
        self.inner.poll(into)
    }

    fn send(&mut self, to: Addr, bytes: &[u8]) -> Result<(), LinkFault> {
        self.inner.send(to, bytes)
    }
}

impl<D: Disk> Disk for Watched<D> {
    ghost meaning = { λ d. D.meaning d.inner };

    ghost is_disk = { λ d. D.is_disk d.inner };

    fn attach(&mut self, name: &str) -> Result<(), DiskFault> {
        let _ = self.asked.push(0);
        self.calls = self.calls.saturating_add(1);
        self.inner.attach(name)
    }

    fn size(&mut self) -> Result<u64, DiskFault> {
        self.calls = self.calls.saturating_add(1);
        self.inner.size()
    }

    fn read(&mut self, at: u64, into: &mut [u8]) -> Result<(), DiskFault> {
        self.calls = self.calls.saturating_add(1);
        self.inner.read(at, into)
    }

    fn write_at(&mut self, at: u64, bytes: &[u8]) -> Result<(), DiskFault> {
        self.calls = self.calls.saturating_add(1);
        self.inner.write_at(at, bytes)
    }

    fn sync(&mut self) -> Result<(), DiskFault> {
        self.calls = self.calls.saturating_add(1);
        self.inner.sync()
    }

    fn acknowledge(&mut self) {
        let _ = self.marks.push(self.calls);
        self.inner.acknowledge();
    }
}
