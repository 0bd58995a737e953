// Lines that go out in one write.
ghost use Rattle.std.specs.Prelude.{◌≡◌, ℕ, List, IfOk};
ghost use Rattle.probe_io.specs.Devices.{Puts, sink_at};

use crate::outside::{Failed, Sink};
use crate::sure::SureSink;
use crate::writing::put_all;
use std::alloc::{AllocError, Global};

/// A text that can be written to any sink.
pub trait Line {
    ghost text: { Self → List ℕ };

    /// Writes the text. After `Failed` a prefix of it was written. It takes no memory.
    fn put<K: Sink>(&self, sink: &mut K) -> Result<(), Failed>
        ensures { Puts (text self.now) (sink_at K.Sink sink.old) (sink_at K.Sink sink.new) result };
}

/// Room in which lines are gathered, so that each goes out in one write. All its memory is taken when it is made.
#[derive(Debug, Drop)]
pub struct LineRoom {
    held: SureSink,
}

impl LineRoom {
    /// Room for a line of at most `room` bytes. A longer one goes out piece by piece.
    pub fn new(alloc: Global, room: usize) -> Result<LineRoom, AllocError> {
        let held = SureSink::with_room(alloc, room)?;
        Ok(LineRoom { held })
    }

    /// Writes the line to the sink. After `Failed` a prefix of it was written. It takes no memory.
    pub fn put<L: Line, K: Sink>(&mut self, line: &L, sink: &mut K) -> Result<(), Failed>
        ensures { Puts (L.text line.now) (sink_at K.Sink sink.old) (sink_at K.Sink sink.new) result }
    {
        self.held.clear();
        let _ = line.put(&mut self.held);
        match self.held.told() {
            Some(bytes) => put_all(sink, bytes),
            None => line.put(sink),
        }
    }
}
