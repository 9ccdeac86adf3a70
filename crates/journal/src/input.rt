// Standard input, an item at a time. The buffer has to hold one item, not one line.
ghost use Rattle.std.specs.Prelude.{◌≡◌, ◌+◌, ◌-◌, ◌<◌, ◌≤◌, min, length, replicate, slice_range, take, IfOk, IfErr};
ghost use Rattle.journal.specs.Bytes.{has, at_hand, AtHand, StopsAt, is_over, ends_at, counted_of};
ghost use Rattle.journal.specs.declared.input.TheConstants.{ROOM};
ghost use Rattle.journal.specs.declared.fault.Fault.TheVariants.{NoInput};

use crate::fault::Fault;
use std::io::{Read, Stdin};

// The buffer's bytes, more than the digits of a message that is kept.
pub const ROOM: usize = 131072;

// What an item ended at.
#[derive(Clone, Copy, Debug, PartialEq, Eq)]
pub enum Stop {
    Byte(u8),
    // The input's end.
    End,
    // The buffer can't hold the rest.
    TooLong,
}

// What is passed over: spaces, the rest of an item, or the rest of a line.
#[derive(Clone, Copy, Debug, PartialEq, Eq)]
pub enum Over {
    Spaces,
    Item,
    Line,
}

impl Over {
    // Whether a byte is passed over; a line's end never is.
    fn passes(self, byte: u8) -> bool
        ensures { result ≡ is_over self byte }
    {
        match byte {
            b'\n' => false,
            b' ' => self != Over::Item,
            _ => self != Over::Spaces,
        }
    }
}

// Whether a line ends at what is at hand: a line's end, or nothing, where the input ends.
pub fn ends(byte: Option<u8>) -> bool
    ensures { result ≡ ends_at byte }
{
    matches!(byte, None | Some(b'\n'))
}

// An item without the carriage return before a line's end or the input's.
pub fn counted(item: &[u8], stop: Stop) -> &[u8]
    ensures { result.now ≡ counted_of item.now stop }
{
    match stop {
        Stop::Byte(b'\n') | Stop::End => item.strip_suffix(b"\r").unwrap_or(item),
        _ => item,
    }
}

// Standard input, which has no equality, and what was read of it: from `item` to `at` the item that was read last, from `at` to `end` what is not used yet.
// An array with three places in it, since these two and the room behind them are parts of one buffer.
#[derive(Drop)]
pub struct Input {
    stdin: Stdin,
    buffer: [u8; ROOM],
    item: usize,
    at: usize,
    end: usize,
    ghost ordered: { item ≤ at },
    ghost unread: { at ≤ end },
    ghost within: { end ≤ ROOM },
}

impl Input {
    pub fn new(stdin: Stdin) -> Self
        ensures stdin { result.stdin ≡ stdin }
        ensures buffer { result.buffer ≡ replicate ROOM 0 }
        ensures item { result.item ≡ 0 }
        ensures at { result.at ≡ 0 }
        ensures end { result.end ≡ 0 }
    {
        Self {
            stdin,
            buffer: [0; ROOM],
            item: 0,
            at: 0,
            end: 0,
        }
    }

    // Whether a whole line is at hand.
    pub fn has_line(&self) -> bool
        ensures { result ≡ has 10 (slice_range self.now.buffer self.now.at self.now.end) }
    {
        self.buffer[self.at..self.end].contains(&b'\n')
    }

    // The byte at hand, if there is one.
    fn at_hand(&self) -> Option<u8>
        ensures { result ≡ at_hand self.now.buffer self.now.at self.now.end }
    {
        if self.at < self.end {
            Some(self.buffer[self.at])
        } else {
            None
        }
    }

    // Reads more behind the item, which moves to the front, and says how many bytes came: 0 where the input ends.
    fn more(&mut self) -> Result<usize, Fault>
        ensures item { IfOk result (λ _. self.new.at + self.old.item ≡ self.old.at) }
        ensures end { IfOk result (λ count. self.new.end + self.old.item ≡ self.old.end + count) }
        ensures front { IfOk result (λ _. self.new.item ≡ 0) }
        ensures kept { IfOk result (λ _. take (self.old.end - self.old.item) self.new.buffer ≡ slice_range self.old.buffer self.old.item self.old.end) }
        ensures failed { IfErr result (λ fault. fault ≡ NoInput) }
    {
        // An item at the front is not gone over again: a long one may come in as many reads as it has bytes.
        if 0 < self.item {
            self.buffer.copy_within(self.item..self.end, 0);
        }
        self.at -= self.item;
        self.end -= self.item;
        self.item = 0;
        let mut stdin = self.stdin;
        let count = stdin
            .read(&mut self.buffer[self.end..])
            .map_err(|_error| Fault::NoInput)?;
        self.end += count;
        Ok(count)
    }

    // Passes over the byte at hand.
    pub fn pass_byte(&mut self)
        ensures at { self.new.at ≡ min (self.old.at + 1) self.old.end }
        ensures item { self.new.item ≡ self.old.item }
        ensures end { self.new.end ≡ self.old.end }
        ensures buffer { self.new.buffer ≡ self.old.buffer }
        ensures stdin { self.new.stdin ≡ self.old.stdin }
    {
        if self.at < self.end {
            self.at += 1;
        }
    }

    // Passes over bytes, and says which is the first that stays to be read: none where the input ends.
    pub fn pass_over(&mut self, over: Over) -> Result<Option<u8>, Fault>
        ensures byte { IfOk result (λ byte. AtHand byte self.new.buffer self.new.at self.new.end) }
        ensures failed { IfErr result (λ fault. fault ≡ NoInput) }
    {
        // So many reads at most, which no input has: a loop has to end, and what is passed over makes no room less.
        for _ in 0..u64::MAX {
            let rest = &self.buffer[self.at..self.end];
            self.at += rest
                .iter()
                .position(|b| !over.passes(*b))
                .unwrap_or(rest.len());
            if let Some(byte) = self.at_hand() {
                return Ok(Some(byte));
            }
            self.item = self.at;
            if self.more()? == 0 {
                break;
            }
        }
        Ok(None)
    }

    // The byte behind the one at hand.
    fn behind(&mut self) -> Result<Option<u8>, Fault>
        requires { self.old.at < self.old.end }
        ensures here { IfOk result (λ _. self.new.at < self.new.end) }
        ensures kept { IfOk result (λ _. at_hand self.new.buffer self.new.at self.new.end ≡ at_hand self.old.buffer self.old.at self.old.end) }
        ensures behind { IfOk result (λ byte. AtHand byte self.new.buffer (self.new.at + 1) self.new.end) }
        ensures failed { IfErr result (λ fault. fault ≡ NoInput) }
    {
        if self.end - self.at == 1 {
            self.item = self.at;
            self.more()?;
        }
        if self.end - self.at == 1 {
            return Ok(None);
        }
        Ok(Some(self.buffer[self.at + 1]))
    }

    // Passes over spaces, and over a carriage return at the line's end, and says which byte is at hand: none where the input ends.
    pub fn next_byte(&mut self) -> Result<Option<u8>, Fault>
        ensures byte { IfOk result (λ byte. AtHand byte self.new.buffer self.new.at self.new.end) }
        ensures failed { IfErr result (λ fault. fault ≡ NoInput) }
    {
        let byte = self.pass_over(Over::Spaces)?;
        if byte != Some(b'\r') {
            return Ok(byte);
        }
        let next = self.behind()?;
        if !ends(next) {
            return Ok(byte);
        }
        self.at += 1;
        Ok(next)
    }

    // Reads the item at hand, up to a space or a line's end. Where neither is there, more is read.
    pub fn next_item(&mut self) -> Result<Stop, Fault>
        ensures stop { IfOk result (λ stop. StopsAt stop self.new.buffer self.new.at self.new.end) }
        ensures failed { IfErr result (λ fault. fault ≡ NoInput) }
    {
        self.item = self.at;
        // A `loop`, since how often it goes depends on what each read brings.
        loop {
            let rest = &self.buffer[self.at..self.end];
            // With `position`, tried, a payment of 256 positions takes 1.23 of its time.
            if let Some(count) = memchr::memchr2(b' ', b'\n', rest) {
                self.at += count;
                return Ok(Stop::Byte(self.buffer[self.at]));
            }
            self.at = self.end;
            if self.at - self.item == ROOM {
                return Ok(Stop::TooLong);
            }
            if self.more()? == 0 {
                return Ok(Stop::End);
            }
        }
    }

    // The item that was read last and ended at `stop`; a carriage return at a line's end is no part of it.
    pub fn item(&self, stop: Stop) -> &[u8]
        ensures { result.now ≡ counted_of (slice_range self.now.buffer self.now.item self.now.at) stop }
    {
        counted(&self.buffer[self.item..self.at], stop)
    }

    // Reads again what stands behind byte `last` of the item.
    pub fn cut_item(&mut self, last: usize)
        ensures at { self.new.at ≡ min (self.old.item + last + 1) self.old.at }
        ensures item { self.new.item ≡ self.old.item }
        ensures end { self.new.end ≡ self.old.end }
        ensures buffer { self.new.buffer ≡ self.old.buffer }
        ensures stdin { self.new.stdin ≡ self.old.stdin }
    {
        if last < self.at - self.item {
            self.at = self.item + last + 1;
        }
    }
}
