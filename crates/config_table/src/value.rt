//! What is wrong with a value at a key.

ghost use Rattle.std.specs.Prelude.{◌≡◌, IfOk};
ghost use Rattle.toml.specs.{Data.{as_integer, as_str, as_array}, View.{view, items_view}};
ghost use Rattle.config_table.specs.Fault.{least, at_place as at_place_of};
ghost use Rattle.config_table.specs.Values as values;

use crate::fault::{ConfigFault, at_place, copied, sooner};
use crate::format::{Form, Range, Shape};
use std::alloc::{AllocError, Global};
use toml::Value;

/// What is wrong with a value.
#[derive(Clone, Copy)]
pub enum Flaw {
    WrongType,
    OutOfRange,
}

fn number_flaw(range: Range, value: &Value) -> Option<Flaw>
    ensures { result ≡ values.number_flaw range (as_integer (view value.now)) }
{
    match value.as_integer() {
        None => Some(Flaw::WrongType),
        Some(number) => match range.checked(number) {
            Some(_) => None,
            None => Some(Flaw::OutOfRange),
        },
    }
}

fn text_flaw(shape: Shape, value: &Value) -> Option<Flaw>
    ensures { result ≡ values.text_flaw shape (as_str (view value.now)) }
{
    match value.as_str() {
        None => Some(Flaw::WrongType),
        Some(text) => {
            if shape.fits(text) {
                None
            } else {
                Some(Flaw::OutOfRange)
            }
        }
    }
}

#[tactic(auto, using(crate::proofs::Items::count_lemma))]
fn rules_flaw(value: &Value) -> Option<Flaw>
    ensures { result ≡ values.rules_flaw (as_array (view value.now)) }
{
    match value.as_array() {
        None => Some(Flaw::WrongType),
        Some(items) => {
            if items.len() <= 64 {
                None
            } else {
                Some(Flaw::OutOfRange)
            }
        }
    }
}

#[tactic(auto, using(crate::proofs::Items::count_lemma))]
fn sinks_flaw(count: u32, value: &Value) -> Option<Flaw>
    ensures { result ≡ values.sinks_flaw count (as_array (view value.now)) }
{
    match value.as_array() {
        None => Some(Flaw::WrongType),
        Some(items) => {
            if items.len() == count as usize {
                None
            } else {
                Some(Flaw::OutOfRange)
            }
        }
    }
}

#[tactic(auto, using(crate::proofs::Items::count_lemma))]
fn select_flaw(count: u32, is_broadcast: bool, value: &Value) -> Option<Flaw>
    ensures { result ≡ values.select_flaw count is_broadcast (as_array (view value.now)) }
{
    match value.as_array() {
        None => Some(Flaw::WrongType),
        Some(items) => {
            if items.len() == count as usize && is_broadcast {
                None
            } else {
                Some(Flaw::OutOfRange)
            }
        }
    }
}

/// What is wrong with the value itself.
fn flaw_of(form: Form, value: &Value) -> Option<Flaw>
    ensures { result ≡ values.flaw_of form (view value.now) }
{
    match form {
        Form::Whole(range) => number_flaw(range, value),
        Form::Text(shape) => text_flaw(shape, value),
        Form::RuleTexts => rules_flaw(value),
        Form::SinkTexts(count) => sinks_flaw(count, value),
        Form::SelectTexts(count, is_broadcast) => select_flaw(count, is_broadcast, value),
    }
}

/// The flaw at its path.
fn flaw_fault(
    alloc: Global,
    path: &str,
    flaw: Option<Flaw>,
) -> Result<Option<ConfigFault>, AllocError>
    ensures { IfOk result (λ found. found ≡ least (values.flaw_faults path.now flaw)) }
{
    Ok(match flaw {
        None => None,
        Some(Flaw::WrongType) => Some(ConfigFault::WrongType(copied(alloc, path)?)),
        Some(Flaw::OutOfRange) => Some(ConfigFault::OutOfRange(copied(alloc, path)?)),
    })
}

/// The flaw at a position under the path.
fn placed_fault(
    alloc: Global,
    path: &str,
    place: usize,
    flaw: Option<Flaw>,
) -> Result<Option<ConfigFault>, AllocError>
    ensures { IfOk result (λ found. found ≡ least (values.flaw_faults (at_place_of path.now place) flaw)) }
{
    if flaw.is_none() {
        return Ok(None);
    }
    let path = at_place(alloc, path, place)?;
    flaw_fault(alloc, path.as_str(), flaw)
}

/// The first fault of an array's texts.
fn item_fault(
    alloc: Global,
    path: &str,
    shape: Shape,
    items: &[Value],
) -> Result<Option<ConfigFault>, AllocError>
    ensures { IfOk result (λ found. found ≡ least (values.item_faults path.now shape 0 (items_view items.now))) }
{
    let mut found = None;
    for (i, item) in items.iter().enumerate() {
        let fault = placed_fault(alloc, path, i, text_flaw(shape, item))?;
        found = sooner(found, fault);
    }
    Ok(found)
}

fn items_fault(
    alloc: Global,
    path: &str,
    shape: Shape,
    value: &Value,
) -> Result<Option<ConfigFault>, AllocError>
    ensures { IfOk result (λ found. found ≡ least (values.items_faults path.now shape (as_array (view value.now)))) }
{
    match value.as_array() {
        None => Ok(None),
        Some(items) => item_fault(alloc, path, shape, items.as_slice()),
    }
}

fn inner_fault(
    alloc: Global,
    path: &str,
    form: Form,
    value: &Value,
) -> Result<Option<ConfigFault>, AllocError>
    ensures { IfOk result (λ found. found ≡ least (values.inner_faults path.now form (view value.now))) }
{
    match form {
        Form::Whole(_) => Ok(None),
        Form::Text(_) => Ok(None),
        Form::RuleTexts => items_fault(alloc, path, Shape::Rule, value),
        Form::SinkTexts(_) => items_fault(alloc, path, Shape::Any, value),
        Form::SelectTexts(_, _) => items_fault(alloc, path, Shape::Selector, value),
    }
}

/// The first fault of a value at this path, and of the texts of an array.
#[tactic(auto, using(crate::proofs::Least::least_of_two))]
pub fn value_fault(
    alloc: Global,
    path: &str,
    form: Form,
    value: &Value,
) -> Result<Option<ConfigFault>, AllocError>
    ensures { IfOk result (λ found. found ≡ least (values.value_faults path.now form (view value.now))) }
{
    let own = flaw_fault(alloc, path, flaw_of(form, value))?;
    let inner = inner_fault(alloc, path, form, value)?;
    Ok(sooner(own, inner))
}
