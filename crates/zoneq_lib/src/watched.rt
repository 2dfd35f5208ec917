//! An end of a run that knows what became of it.

ghost use Rattle.std.specs.Io.{ReadsAtMost, WritesAtMost, KnownBytes.{Keeps, ReadConsumes, WriteAppends}};
ghost use Rattle.std.specs.Prelude.{◌≡◌, ◌+◌, ◌-◌, ◌^◌, ◌&&◌, ◌||◌, false, length, min};
ghost use Rattle.zoneq_lib.specs.Ends.{gave_nothing, gave_something, has_failed};

use std::io;
use std::io::{Read, Write};
use std::marker::Model;

/// A reader or a writer, with a record of its failures, its end and what is unsent.
///
/// It passes calls through. A call that returns an error has failed, `Interrupted` too, and so has
/// one that writes none of some bytes. What was written is sent once a flush succeeds.
///
/// The bytes in the contracts are those that the end itself shows. So an answer that the end did
/// not give breaks them if it gives or takes bytes, or claims the end of the input. That an error
/// came from the end, and a flush reached it, can't be said of every end: `Read` and `Write` have
/// no word for a call that leaves the bytes as they are.
#[derive(Drop)]
pub struct Watched<T> {
    end: T,
    has_failed: bool,
    has_ended: bool,
    has_unsent: bool,
    read_count: u64,
}

impl<T> Model for Watched<T> {
    ghost use Rattle.zoneq_lib.specs.Ends.{Watch};

    ghost Value = { Watch T };

    ghost view = { λ w. record {
      inner = w.end;
      failed = w.has_failed;
      ended = w.has_ended;
      unsent = w.has_unsent;
      reads = w.read_count;
    } };
}

impl<T> Watched<T> {
    /// Watches an end that has not been used through it yet.
    pub fn new(inner: T) -> Self
        ensures inner { result.inner ≡ inner }
        ensures failed { result.failed ≡ false }
        ensures ended { result.ended ≡ false }
        ensures unsent { result.unsent ≡ false }
        ensures reads { result.reads ≡ 0 }
    {
        Watched {
            end: inner,
            has_failed: false,
            has_ended: false,
            has_unsent: false,
            read_count: 0,
        }
    }

    /// Returns whether a call has failed.
    pub fn failed(&self) -> bool
        ensures { result ≡ self.now.failed }
    {
        self.has_failed
    }

    /// Returns whether a read has given no byte for some room.
    pub fn ended(&self) -> bool
        ensures { result ≡ self.now.ended }
    {
        self.has_ended
    }

    /// Returns whether bytes were written since the last flush that succeeded.
    pub fn unsent(&self) -> bool
        ensures { result ≡ self.now.unsent }
    {
        self.has_unsent
    }

    /// Returns how many reads were made. The count stays at `u64::MAX` once it is there.
    pub fn reads(&self) -> u64
        ensures { result ≡ self.now.reads }
    {
        self.read_count
    }

    /// Returns the reader or writer itself.
    pub fn into_inner(self) -> T
        ensures { result ≡ self.inner }
    {
        let Watched {
            end,
            has_failed: _,
            has_ended: _,
            has_unsent: _,
            read_count: _,
        } = self;
        end
    }
}

impl<R: Read> Watched<R> {
    /// Reads once. `Ok(0)` for some room is the end.
    pub fn read(&mut self, buf: &mut [u8]) -> io::Result<usize>
        ensures bound { ReadsAtMost result buf.new }
        ensures bytes { ReadConsumes
            (R.remaining self.old.inner) (R.remaining self.new.inner) result buf.new }
        ensures failed { self.new.failed ≡ (self.old.failed || has_failed result) }
        ensures ended { self.new.ended
            ≡ (self.old.ended || gave_nothing result (length buf.old)) }
        ensures unsent { self.new.unsent ≡ self.old.unsent }
        ensures reads { self.new.reads ≡ min (self.old.reads + 1) (2 ^ 64 - 1) }
    {
        self.read_count = self.read_count.saturating_add(1);
        match self.end.read(buf) {
            Ok(n) => {
                if n == 0 && !buf.is_empty() {
                    self.has_ended = true;
                }
                Ok(n)
            }
            Err(e) => {
                self.has_failed = true;
                Err(e)
            }
        }
    }
}

impl<W: Write> Watched<W> {
    /// Writes once, and says how many of the bytes were taken.
    pub fn write(&mut self, buf: &[u8]) -> io::Result<usize>
        ensures bound { WritesAtMost result buf.now }
        ensures bytes { WriteAppends
            (W.contents self.old.inner) (W.contents self.new.inner) result buf.now }
        ensures failed { self.new.failed
            ≡ (self.old.failed || (has_failed result || gave_nothing result (length buf.now))) }
        ensures ended { self.new.ended ≡ self.old.ended }
        ensures unsent { self.new.unsent ≡ (self.old.unsent || gave_something result) }
        ensures reads { self.new.reads ≡ self.old.reads }
    {
        match self.end.write(buf) {
            Ok(n) => {
                if n > 0 {
                    self.has_unsent = true;
                } else if !buf.is_empty() {
                    self.has_failed = true;
                }
                Ok(n)
            }
            Err(e) => {
                self.has_failed = true;
                Err(e)
            }
        }
    }

    /// Sees that what was written has left every buffer on its way.
    pub fn flush(&mut self) -> io::Result<()>
        ensures bytes { Keeps (W.contents self.old.inner) (W.contents self.new.inner) }
        ensures failed { self.new.failed ≡ (self.old.failed || has_failed result) }
        ensures ended { self.new.ended ≡ self.old.ended }
        ensures unsent { self.new.unsent ≡ (self.old.unsent && has_failed result) }
        ensures reads { self.new.reads ≡ self.old.reads }
    {
        match self.end.flush() {
            Ok(()) => {
                self.has_unsent = false;
                Ok(())
            }
            Err(e) => {
                self.has_failed = true;
                Err(e)
            }
        }
    }
}
