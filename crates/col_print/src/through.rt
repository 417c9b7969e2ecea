//! A text that goes through a buffer into a sink.
ghost use Rattle.std.specs.Prelude.{◌≡◌, ◌≤◌, ◌+◌, ◌↔◌, ◌<◌, [], None, Err, true, length, OnOk, Ok, ℕ};
ghost use Rattle.std.specs.Prelude.{vec_capacity, vec_len};
ghost use Rattle.col_common.specs.declared.outside.HandleError.TheVariants.{Memory};
ghost use Rattle.col_print.specs.Puts.{SeenOut, Puts};

use crate::Out;
use col_common::{HandleError, Sink};

/// A text on its way into a sink, through a buffer that doesn't grow. Behind a refusal nothing is
/// taken.
#[derive(Drop)]
pub struct Through<'a, R: Sink> {
    pub sink: &'a mut R,
    buffer: &'a mut Vec<u8>,
    ended: Result<(), HandleError>,
    ghost in_parts: { R.in_parts ≡ true },
    ghost settled: { ended ≡ Err Memory → (R.seen sink.now).written ≡ None },
}

impl<'a, R: Sink> Through<'a, R> {
    /// Nothing was put.
    pub fn new(sink: &'a mut R, buffer: &'a mut Vec<u8>) -> Through<'a, R>
        requires parts { R.in_parts ≡ true }
        requires empty { buffer.old.items ≡ [] }
        ensures same_reference { result.sink.ghost_name ≡ sink.entry.ghost_name }
        ensures nothing { ⟦<Through<'a, R> as Out>⟧.seen result
            ≡ record {
              place = sink.entry.ghost_name;
              sink = R.seen sink.entry.now;
              pending = [];
              ended = Ok tt;
            } }
    {
        Through {
            sink,
            buffer,
            ended: Ok(()),
        }
    }

    /// Writes what is pending.
    pub fn flush(&mut self)
        ensures same_reference { self.new.sink.ghost_name ≡ self.old.sink.ghost_name }
        ensures puts { Puts (⟦<Through<'a, R> as Out>⟧.seen self.old)
            (⟦<Through<'a, R> as Out>⟧.seen self.new) [] }
        ensures none { OnOk (⟦<Through<'a, R> as Out>⟧.seen self.new).ended
            ((⟦<Through<'a, R> as Out>⟧.seen self.new).pending ≡ []) }
    {
        if self.ended.is_err() {
            return;
        }
        self.ended = self.sink.write_all(self.buffer);
        self.buffer.clear();
    }

    /// Whether all was taken so far.
    pub fn ended(&self) -> Result<(), HandleError>
        ensures ended { result ≡ (⟦<Through<'a, R> as Out>⟧.seen self.now).ended }
        ensures memory { result ≡ Err Memory
            → (⟦<Through<'a, R> as Out>⟧.seen self.now).sink.written ≡ None }
    {
        self.ended
    }

    // Whether so many bytes more have no room.
    #[inline]
    fn lacks_room(&self, count: usize) -> bool
        ensures { (result ≡ true)
            ↔ (vec_capacity self.now.buffer.now < vec_len self.now.buffer.now + count) }
    {
        self.buffer.capacity() - self.buffer.len() < count
    }

    // Puts bytes that have no room behind what is pending: that is written, and then they have, or
    // are written as they are.
    #[cold]
    fn put_behind(&mut self, bytes: &[u8])
        ensures { Puts (⟦<Through<'a, R> as Out>⟧.seen self.old)
            (⟦<Through<'a, R> as Out>⟧.seen self.new) bytes.now }
    {
        self.flush();
        if self.ended.is_err() {
            return;
        }
        if self.lacks_room(bytes.len()) {
            self.ended = self.sink.write_all(bytes);
            return;
        }
        if self.buffer.extend_from_slice(bytes).is_err() {
            unreachable!()
        }
    }
}

impl<R: Sink> Out for Through<'_, R> {
    ghost seen = { λ t. record {
      place = t.sink.ghost_name;
      sink = R.seen t.sink.now;
      pending = t.buffer.now.items;
      ended = t.ended;
    } };

    #[inline]
    fn put(&mut self, bytes: &[u8]) {
        if self.ended.is_err() {
            return;
        }
        if self.lacks_room(bytes.len()) {
            self.put_behind(bytes);
            return;
        }
        if self.buffer.extend_from_slice(bytes).is_err() {
            unreachable!()
        }
    }

    #[inline]
    fn is_refused(&self) -> bool {
        self.ended.is_err()
    }
}
