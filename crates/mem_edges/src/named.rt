//! What stands under names, the newest first.

ghost use Rattle.std.specs.Prelude.{◌≡◌, MatchOption, false, OnOk, OnErr, IfOk};
ghost use Rattle.mem_edges.specs.{Shelf.{is_free}, Opens.{Puts}, Place.{IsFreePlace}};

use pipe_types::bytes::Text;
use std::alloc::{AllocError, Global};

/// Something under a name: whether it is open, and whether it was given back.
#[derive(Drop)]
pub struct Named<T> {
    pub name: Text,
    pub item: T,
    pub opened: bool,
    pub returned: bool,
}

// A text of its own.
pub fn copy_text(alloc: Global, text: &Text) -> Result<Text, AllocError>
    ensures { IfOk result (λ t. t ≡ text.now) }
{
    Ok(Text::from_string(String::from_str(alloc, text.as_str())?))
}

// The place of what stands under a name, where it is not open.
pub fn free_place<T>(shelf: &[Named<T>], name: &Text) -> Option<usize>
    ensures { MatchOption result (is_free name.now shelf.now ≡ false) (IsFreePlace name.now shelf.now) }
{
    for (at, named) in shelf.iter().enumerate() {
        if named.name.as_str() == name.as_str() {
            return if named.opened { None } else { Some(at) };
        }
    }
    None
}

// Puts something under a name. For want of memory nothing is added.
pub fn put<T: Drop>(
    shelf: &mut Vec<Named<T>>,
    name: Text,
    item: T,
    returned: bool,
) -> Result<(), AllocError>
    ensures ok { OnOk result (Puts name item returned shelf.old.items shelf.new.items) }
    ensures err { OnErr result (shelf.new.items ≡ shelf.old.items) }
{
    let named = Named {
        name,
        item,
        opened: false,
        returned,
    };
    shelf.insert(0, named)?;
    Ok(())
}
