//! Where bytes come from.

ghost use Rattle.std.specs.Prelude.{◌≡◌, ◌<◌, ◌≤◌, Bool, List, ℕ, length, IsTrue};
ghost use Rattle.pipe_edges.specs.{Reads.{ReadsBytes, ReadIsCounted, ReadHasCause}, Paces.{PaceSeen, ReadIsPaced, told_at, unpaced}};

/// What a read came to: some bytes, the end, a fault, or nothing ready yet.
#[derive(Clone, Copy, PartialEq, Eq)]
pub enum ReadEnd {
    Got(usize),
    End,
    Failed,
    Empty,
}

/// A source of bytes. Its counts of faults and waits never fall; clauses on bytes hold where it tells them.
pub trait ByteSource {
    /// Whether it tells its bytes. No call changes it.
    ghost told: { Self → Bool };

    /// The bytes read so far.
    ghost taken: { Self → List ℕ };

    /// The bytes that are still to come.
    ghost left: { Self → List ℕ };

    /// How often a read failed.
    ghost faults: { Self → ℕ };

    /// How often nothing was ready.
    ghost waits: { Self → ℕ };

    /// What is seen of a gate before it: the pace, the moment, the records given since its interval began, and how often
    /// nothing was ready of the source behind it. Without a pace all of it is as in the beginning.
    ghost paced: { Self → PaceSeen } = { λ _. unpaced };

    /// Reads some of the next bytes into the front of the piece.
    fn read(&mut self, piece: &mut [u8]) -> ReadEnd
        requires { 0 < length piece.old }
        ensures same_telling { told self.new ≡ told self.old }
        ensures counted { ReadIsCounted (length piece.old) result }
        ensures bytes { IsTrue (told self.old)
            → ReadsBytes (taken self.old) (left self.old) piece.new (taken self.new) (left self.new) result }
        ensures faults_stay { faults self.old ≤ faults self.new }
        ensures waits_stay { waits self.old ≤ waits self.new }
        ensures cause { ReadHasCause (faults self.old) (faults self.new) (waits self.old) (waits self.new) result }
        ensures paced { ReadIsPaced (paced self.old) (paced self.new) piece.new result };

    /// Tells the moment in milliseconds. It does nothing to a source without a pace, and nothing to the bytes and the
    /// counts of any.
    fn at(&mut self, now: u64)
        ensures same_telling { told self.new ≡ told self.old }
        ensures same_bytes { (taken self.new ≡ taken self.old) × (left self.new ≡ left self.old) }
        ensures same_counts { (faults self.new ≡ faults self.old) × (waits self.new ≡ waits self.old) }
        ensures paced { paced self.new ≡ told_at now (paced self.old) };
}
