//! Where bytes go.

ghost use Rattle.std.specs.Prelude.{◌≡◌, ◌<◌, ◌≤◌, Bool, List, ℕ, length, IsTrue};
ghost use Rattle.pipe_edges.specs.Writes.{WritesBytes, WriteIsCounted, WriteHasCause, PutsBytes, PutHasCause};

use pipe_types::bytes::Bytes;

/// What a write came to: how many bytes were taken, or a fault.
#[derive(Clone, Copy, PartialEq, Eq)]
pub enum WriteEnd {
    Took(usize),
    Failed,
}

/// A sink of bytes. Its count of faults never falls; clauses on bytes hold where it tells them.
pub trait ByteSink {
    /// Whether it tells its bytes. No call changes it.
    ghost told: { Self → Bool };

    /// All the bytes that it holds.
    ghost held: { Self → List ℕ };

    /// How often a write failed.
    ghost faults: { Self → ℕ };

    /// Appends some bytes of the front of the piece.
    fn write(&mut self, piece: &[u8]) -> WriteEnd
        requires { 0 < length piece.now }
        ensures same_telling { told self.new ≡ told self.old }
        ensures counted { WriteIsCounted (length piece.now) result }
        ensures bytes { IsTrue (told self.old) → WritesBytes (held self.old) piece.now (held self.new) result }
        ensures faults_stay { faults self.old ≤ faults self.new }
        ensures cause { WriteHasCause (faults self.old) (faults self.new) result };
}

/// What putting a whole text came to: all of it, or the number of bytes that went out before the fault.
#[derive(Clone, Copy, PartialEq, Eq)]
pub enum PutEnd {
    All,
    Failed(usize),
}

/// Writes all the bytes. Each write is offered all that are left; the first fault ends it.
pub fn put_all<K: ByteSink>(sink: &mut K, bytes: &Bytes) -> PutEnd
    ensures same_telling { K.told sink.new ≡ K.told sink.old }
    ensures bytes { IsTrue (K.told sink.old) → PutsBytes (K.held sink.old) bytes.now (K.held sink.new) result }
    ensures faults_stay { K.faults sink.old ≤ K.faults sink.new }
    ensures cause { PutHasCause (K.faults sink.old) (K.faults sink.new) (length bytes.now) result }
{
    let all = bytes.as_slice();
    let mut done = 0;
    while done < all.len() {
        match sink.write(&all[done..]) {
            WriteEnd::Took(n) => done += n,
            WriteEnd::Failed => return PutEnd::Failed(done),
        }
    }
    PutEnd::All
}
