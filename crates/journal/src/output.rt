// Standard output through a buffer.
ghost use Rattle.std.specs.Prelude.{◌≡◌, ◌+◌, ◌<◌, ◌≤◌, ◌++◌, ◌∷◌, [], length, replicate, true};
ghost use Rattle.journal.specs.declared.output.TheConstants.{ROOM};

use std::fmt;
use std::io::{Stdout, Write};

// The buffer's bytes.
pub const ROOM: usize = 65536;

// Standard output, which has no equality, the bytes that wait to be written to it, up to `at` in the buffer, and whether every write so far took all its
// bytes: `ok` is a yes or no to all who ask, and an enum would be turned into it. `within` stands again in the contracts of the functions that write text: of
// what the system decides it is all that they can say, and no public function of this library is without a contract. An array and a place, since an array
// vector can't be copied.
#[derive(Clone, Copy)]
pub struct Pen {
    stdout: Stdout,
    buffer: [u8; ROOM],
    at: usize,
    ok: bool,
    ghost within: { at ≤ ROOM },
}

impl Pen {
    ghost use Rattle.journal.specs.Output.{waiting};

    pub fn new(stdout: Stdout) -> Self
        ensures stdout { result.stdout ≡ stdout }
        ensures buffer { result.buffer ≡ replicate ROOM 0 }
        ensures at { result.at ≡ 0 }
        ensures ok { result.ok ≡ true }
        ensures none { waiting result ≡ [] }
    {
        Self {
            stdout,
            buffer: [0; ROOM],
            at: 0,
            ok: true,
        }
    }

    // Whether every write so far took all its bytes.
    pub fn is_ok(&self) -> bool
        ensures { result ≡ self.now.ok }
    {
        self.ok
    }

    // Writes out what the buffer holds, unless a write failed before.
    pub fn flush(&mut self)
        ensures at { self.new.at ≡ 0 }
        ensures none { waiting self.new ≡ [] }
    {
        if self.ok {
            let stdout = self.stdout;
            self.ok = stdout.write_all(&self.buffer[..self.at]).is_ok();
        }
        self.at = 0;
    }

    // One byte more.
    #[inline]
    pub fn byte(&mut self, b: u8)
        ensures room { self.old.at < ROOM → waiting self.new ≡ waiting self.old ++ b ∷ [] }
        ensures full { ROOM ≤ self.old.at → waiting self.new ≡ b ∷ [] }
    {
        if self.at == ROOM {
            self.flush();
        }
        self.buffer[self.at] = b;
        self.at += 1;
    }

    // Some bytes more, one by one: what there is no room for goes behind what the buffer held.
    #[cold]
    #[inline(never)]
    fn each_byte(&mut self, bytes: &[u8])
        ensures { self.new.at ≤ ROOM }
    {
        for b in bytes {
            self.byte(*b);
        }
    }

    // Some bytes more: in one copy where there is room for all of them, since a table's columns are many short texts.
    #[inline]
    pub fn bytes(&mut self, bytes: &[u8])
        ensures within { self.new.at ≤ ROOM }
        ensures room { self.old.at + length bytes.now ≤ ROOM → waiting self.new ≡ waiting self.old ++ bytes.now }
    {
        if bytes.len() <= ROOM - self.at {
            let end = self.at + bytes.len();
            self.buffer[self.at..end].copy_from_slice(bytes);
            self.at = end;
        } else {
            self.each_byte(bytes);
        }
    }

    #[inline]
    pub fn text(&mut self, text: &str)
        ensures { self.new.at ≤ ROOM }
    {
        self.bytes(text.as_bytes());
    }

    // A number in decimal. `itoa` puts what `decimal` of std's definitions tells, which is read back as the number: a law (`read_back`).
    pub fn number(&mut self, n: u64)
        ensures { self.new.at ≤ ROOM }
    {
        // A single digit, as most words of a pool that is not full, needs no copy.
        if n < 10 {
            self.byte(b'0' + n as u8);
        } else {
            self.text(itoa::Buffer::new().format(n));
        }
    }
}

impl fmt::Write for Pen {
    ghost write_str_gives = { λ _ _ pen. pen.at ≤ ROOM };

    #[inline]
    fn write_str(&mut self, text: &str) -> fmt::Result {
        self.text(text);
        Ok(())
    }
}
