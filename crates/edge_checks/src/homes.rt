//! The posts that the boxes of a kind are for.

use super::texts::{halves, number};
use box_stock::home_of;
use pipe_config::read_topology;
use pipe_types::numbers::Post;
use pipe_types::topology::Kind;
use std::{fs, io};
use told_text::Told;

/// `home FILE KIND BEFORE`: the post of a box of the kind `own` or `steps` that has so many of its kind before it.
pub fn home(rt: &HostRuntime, told: &mut Told, acts: &str) -> io::Result<()> {
    let (file, rest) = halves(acts);
    let text = fs::read_to_string(rt, file)?;
    tell_home(told, text.as_str(), rest);
    Ok(())
}

fn tell_home(told: &mut Told, text: &str, rest: &str) {
    let (word, before) = halves(rest);
    let Ok(topology) = read_topology(told.alloc, text.as_bytes()) else {
        return told.add(" no topology");
    };
    match home_of(&topology, kind_of(word), number(before)) {
        Some(post) => tell_post(told, post),
        None => told.add(" none"),
    }
}

/// Tells the stage and the slot.
pub fn tell_post(told: &mut Told, post: Post) {
    told.count(u64::from(post.stage.0));
    told.add(".");
    told.number(u64::from(post.slot));
}

fn kind_of(word: &str) -> Kind {
    match word {
        "own" => Kind::Own,
        _ => Kind::Steps,
    }
}
