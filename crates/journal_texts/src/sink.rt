//! Where a text is written, piece by piece.

ghost use Rattle.std.specs.Prelude.{◌++◌, List, ℕ, []};

/// What a text is written to. What cannot be written is left out, and all that comes behind it.
pub trait TextSink {
    /// From the one state to the other this text was written, or a front of it where not all could be.
    ghost puts: { Self → Self → List ℕ → Type 0 };

    /// Writes the bytes.
    fn put(&mut self, text: &[u8])
        ensures { puts self.old self.new text.now };

    /// Where no text was written nothing changed.
    ghost nothing: { (now : Self) → puts now now [] };

    /// One text and then another is both.
    ghost together: { (old mid new : Self) (first second : List ℕ) → puts old mid first → puts mid new second → puts old new (first ++ second) };
}
