//! The rule of the table, and what each kind of step tells.
ghost use Rattle.pipeline_turn.specs.{Rule.{IsRuled, opening_view}, Steps.{took, gave, settled, unchanged, parting, parted, hearing, spent_view}};

use crate::held::Held;
use crate::view::{Handed, View};
use atomic_table::{Join, Play, Split, TableRule};
use std::marker::PhantomData;
use std::snapshot::Snapshot;

/// What the table is told once.
#[derive(Drop)]
pub struct Terms<V> {
    pub parts: u32,
    pub opening: Snapshot<V>,
}

/// One seat at a time holds the value, and its journal only grows.
pub struct OneHolder<V> {
    value: PhantomData<V>,
}

impl<V: Held> TableRule<Option<Handed<V>>, View<V::Start>, Terms<V>> for OneHolder<V> {
    ghost holds = { λ terms. IsRuled V.steps V.stems V.away terms.parts };

    ghost first = { λ terms. opening_view terms.parts (V.start terms.opening.value) };
}

pub(crate) struct Take<V> {
    value: PhantomData<V>,
}

impl<V: Held> Play<Option<Handed<V>>, View<V::Start>> for Take<V> {
    ghost then = { took V.steps V.stems V.away };
}

pub(crate) struct Give<V> {
    value: PhantomData<V>,
}

impl<V: Held> Play<Option<Handed<V>>, View<V::Start>> for Give<V> {
    ghost then = { gave V.steps };
}

/// The step that counts news, or the workers that sleep.
pub(crate) struct Tell;

impl<V, O> Play<Option<Handed<V>>, View<O>> for Tell {
    ghost then = { unchanged };
}

/// The load by which a seat takes over what another one had seen.
pub(crate) struct Settle;

impl<V, O> Play<Option<Handed<V>>, View<O>> for Settle {
    ghost then = { settled };
}

pub(crate) struct Parting;

impl<O> Split<View<O>> for Parting {
    ghost left = { parting };

    ghost right = { parted };
}

impl<O> Join<View<O>> for Parting {
    ghost both = { hearing };

    ghost spent = { spent_view };
}
