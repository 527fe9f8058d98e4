//! Sources in order.

ghost use Rattle.std.specs.Prelude.{◌≡◌};

use std::marker::Model;

/// Sources, which contracts see as the list of them.
#[derive(Drop)]
pub struct SourceList<B> {
    items: Vec<B>,
}

impl<B> Model for SourceList<B> {
    ghost use Rattle.std.specs.Prelude.{List};

    ghost Value = { List B };

    ghost view = { λ l. l.items.items };
}

impl<B> SourceList<B> {
    pub fn from_vec(items: Vec<B>) -> Self
        ensures { result ≡ items.items }
    {
        SourceList { items }
    }

    pub fn into_vec(self) -> Vec<B>
        ensures { result.items ≡ self }
    {
        self.items
    }

    pub fn as_slice(&self) -> &[B]
        ensures { result.now ≡ self.now }
    {
        self.items.as_slice()
    }
}
