// Text gathered in a page, so that the system is asked once for a few thousand bytes. std's BufWriter would take its page from the heap.
ghost use Rattle.std.specs.Prelude.{◌≡◌, ◌+◌, ◌≤◌, length, OnOk};

use std::io;
use std::io::Write;

const PAGE: usize = 4096;

// The first `len` bytes of the page wait to be written; what waits at the end is written by `flush` alone.
#[derive(Drop)]
pub struct Pages<W> {
    to: W,
    page: [u8; PAGE],
    len: usize,
    ghost in_page: { len ≤ 4096 },
}

fn copy_in(page: &mut [u8], at: usize, text: &[u8])
    requires { at + length text.now ≤ length page.old }
{
    page[at..at + text.len()].copy_from_slice(text);
}

impl<W: Write> Pages<W> {
    pub fn new(to: W) -> Pages<W> {
        Pages {
            to,
            page: [0; PAGE],
            len: 0,
        }
    }

    fn add(&mut self, text: &[u8])
        requires { self.old.len + length text.now ≤ 4096 }
    {
        copy_in(&mut self.page, self.len, text);
        self.len += text.len();
    }

    // Writes what waits. After an error all of it still waits.
    fn turn(&mut self) -> io::Result<()>
        ensures { OnOk result (self.new.len ≡ 0) }
    {
        self.to.write_all(&self.page[..self.len])?;
        self.len = 0;
        Ok(())
    }

    // A text that has no room, for the next page; one that is longer than a page is written at once. It stands apart, so that the test for room is
    // inlined.
    #[cold]
    #[inline(never)]
    fn write_over(&mut self, text: &[u8]) -> io::Result<()> {
        self.turn()?;
        if PAGE < text.len() {
            return self.to.write_all(text);
        }
        self.add(text);
        Ok(())
    }
}

impl<W: Write> Write for Pages<W> {
    fn write(&mut self, buf: &[u8]) -> io::Result<usize> {
        self.write_all(buf)?;
        Ok(buf.len())
    }

    fn flush(&mut self) -> io::Result<()> {
        self.turn()?;
        self.to.flush()
    }

    #[inline(always)]
    fn write_all(&mut self, buf: &[u8]) -> io::Result<()> {
        if buf.len() <= PAGE - self.len {
            self.add(buf);
            return Ok(());
        }
        self.write_over(buf)
    }
}
