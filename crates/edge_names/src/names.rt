//! The names in the text of a producer's source.

ghost use Rattle.std.specs.Prelude.{◌≡◌, ◌∷◌, ◌==◌, ◌≤◌, ℕ, Some, option_map, slice_get, length, count_by, true, IsTrue, IfOk, IfSome};
ghost use Rattle.config_rule.specs.SourceText.{merged_in, parts, are_names};
ghost use Rattle.edge_names.specs.Supplies.{Opened, feed_at, feed_of_text, merge_count, names_of as names_of_text};
ghost use Rattle.edge_names.specs.Naming.{parts_behind};

use config_rule::sources::may_be_source;
use pipe_types::bytes::Text;
use std::alloc::{AllocError, Global};

/// A text of its own.
pub(crate) fn copy_text(alloc: Global, text: &str) -> Result<Text, AllocError>
    ensures { IfOk result (λ copy. copy ≡ text.now) }
{
    Ok(Text::from_string(String::from_str(alloc, text)?))
}

/// What stands behind `many:`, if the text begins so.
fn behind_many<'a>(text: &'a str) -> Option<&'a str>
    ensures { option_map (λ names. names.now) result ≡ merged_in text.now }
{
    text.strip_prefix("many:")
}

/// The names of a text that is a merge: as many as a producer may have, joined by commas.
fn names_of<'a>(splits: bool, text: &'a str) -> Option<&'a str>
    ensures { option_map (λ names. names.now) result ≡ names_of_text splits text.now }
{
    if !splits || !may_be_source(text.as_bytes()) {
        return None;
    }
    behind_many(text)
}

/// The first name, and what stands behind its comma.
fn first_name<'a>(names: &'a str) -> (&'a str, Option<&'a str>)
    ensures { parts names.now ≡ result.0.now ∷ parts_behind (option_map (λ behind. behind.now) result.1) }
{
    match names.split_once(',') {
        Some((name, behind)) => (name, Some(behind)),
        None => (names, None),
    }
}

/// The name at a place, from 0.
fn name_at<'a>(names: &'a str, place: usize) -> Option<&'a str>
    ensures { option_map (λ name. name.now) result ≡ slice_get (parts names.now) place }
{
    let mut rest = names;
    for _ in 0..place {
        match first_name(rest).1 {
            Some(behind) => rest = behind,
            None => return None,
        }
    }
    Some(first_name(rest).0)
}

fn count_commas(text: &[u8]) -> usize
    ensures { result ≡ count_by (λ b. b == 44) text.now }
{
    text.iter().filter(|b| **b == b',').count()
}

/// How many names there are.
fn count_names(names: &str) -> usize
    requires { are_names (parts names.now) ≡ true }
    ensures { result ≡ length (parts names.now) }
{
    count_commas(names.as_bytes()) + 1
}

/// How many sources the text merges into one, if it is a merge.
pub(crate) fn count_merged(splits: bool, text: &str) -> Option<usize>
    ensures count { result ≡ merge_count (Some (feed_of_text splits text.now)) }
    ensures few { IfSome result (λ n. (2 ≤ n) × (n ≤ 64)) }
{
    match names_of(splits, text) {
        Some(names) => Some(count_names(names)),
        None => None,
    }
}

/// The name at a place of the text, from 0: of a merge one of its names, and else the text.
fn choose_name<'a>(splits: bool, text: &'a str, place: usize) -> Option<&'a str>
    ensures { option_map (λ name. Opened name.now) result ≡ feed_at (Some (feed_of_text splits text.now)) place }
{
    match names_of(splits, text) {
        Some(names) => name_at(names, place),
        None => Some(text),
    }
}

/// The same as a text of its own.
pub(crate) fn copy_name(
    alloc: Global,
    splits: bool,
    text: &str,
    place: usize,
) -> Result<Option<Text>, AllocError>
    ensures { IfOk result (λ name. option_map Opened name ≡ feed_at (Some (feed_of_text splits text.now)) place) }
{
    match choose_name(splits, text, place) {
        Some(name) => match copy_text(alloc, name) {
            Ok(copy) => Ok(Some(copy)),
            Err(error) => Err(error),
        },
        None => Ok(None),
    }
}
