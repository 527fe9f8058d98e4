//! What a turn hands about.
ghost use Rattle.std.specs.Prelude.{◌≡◌, List};
ghost use Rattle.pipe_types.specs.declared.numbers.Post.{Post};
ghost use Rattle.pipe_model.specs.{History.{History}, Posts.{is_out}};

use pipe_journal::Journal;
use pipe_types::numbers::Post;

/// A value with a journal.
pub trait Held {
    /// What a value was at the start, as plain data. No value of it is made.
    type Start;

    ghost start: { Self → Self.Start };

    /// The value comes from that start.
    ghost stems: { Self.Start → Self → Type 0 };

    /// The steps of its journal, newest first.
    ghost steps: { Self → History };

    /// The posts whose bodies are away from the value.
    ghost away: { Self → List Post };

    fn journal(&self) -> &Journal
        ensures { result.now.steps ≡ steps self.now };

    /// Whether the last step that put the post out is followed by none that answers it. The value stems from a start, as each
    /// value in a turn does.
    fn is_out(&self, post: Post) -> bool
        requires stems { (origin : Self.Start) × stems origin self.now }
        ensures { result ≡ is_out (steps self.now) post };
}
