//! The rows of subscriptions.

ghost use Rattle.std.specs.Prelude.{◌≡◌, ◌++◌, IfOk, map};
ghost use Rattle.pipe_types.specs.Numbers.{subscription};
ghost use Rattle.pipe_model.specs.{Flow.{sent as sent_in}, Acknowledgements.{numbers_upto}};
ghost use Rattle.plain_legal.specs.Machines.{MachineStands, topology_of, history_of};
ghost use Rattle.pipe_replay.specs.Rows.{sub_row as sub_row_in, rows_of_pair as rows_of_pair_in, rows_of_consumer as rows_of_consumer_in, rows_of_all as rows_of_all_in};

use pipe_types::numbers::{StageNo, SubNo};
use pipe_types::state::SubRow;
use pipe_types::topology::feeds;
use plain_counts::{asked, unit_no};
use plain_legal::Machine;
use plain_lives::generation;
use plain_queues::sent_on;
use plain_works::handled;
use std::alloc::{AllocError, Global};

/// How many units were sent on the subscription.
fn sent(machine: &Machine<'_>, sub: SubNo) -> Result<u64, AllocError>
    requires { MachineStands machine.now }
    ensures { IfOk result (λ n. n ≡ sent_in (topology_of machine.now) (history_of machine.now) sub) }
{
    sent_on(machine.flow.tables, sub)
}

/// The counts of a subscription.
fn sub_row(machine: &Machine<'_>, sub: SubNo) -> Result<SubRow, AllocError>
    requires { MachineStands machine.now }
    ensures { IfOk result (λ row. row ≡ sub_row_in (topology_of machine.now) (history_of machine.now) sub) }
{
    let asked = asked(machine.flow.past.steps, sub)?;
    let sent = sent(machine, sub)?;
    let handled = handled(&machine.flow.past, machine.works, sub)?;
    let live = machine.flow.past.is_live_sub(sub)?;
    Ok(SubRow {
        sub,
        asked,
        sent,
        handled,
        live,
    })
}

/// Puts a row for each of the pair's first generations behind the others.
fn push_generations(
    old: Vec<SubRow>,
    machine: &Machine<'_>,
    consumer: StageNo,
    producer: StageNo,
    last: u64,
) -> Result<Vec<SubRow>, AllocError>
    requires { MachineStands machine.now }
    ensures { IfOk result (λ rows. rows.items ≡ old.items ++ map (λ g. sub_row_in (topology_of machine.now) (history_of machine.now) (subscription consumer producer g)) (numbers_upto last)) }
{
    let mut rows = old;
    for before in 0..last {
        let sub = SubNo {
            consumer,
            producer,
            generation: unit_no(before + 1)?,
        };
        rows.push(sub_row(machine, sub)?)?;
    }
    Ok(rows)
}

/// Puts a row for each generation of the pair behind the others, where it feeds.
fn push_pair(
    old: Vec<SubRow>,
    machine: &Machine<'_>,
    consumer: StageNo,
    producer: StageNo,
) -> Result<Vec<SubRow>, AllocError>
    requires { MachineStands machine.now }
    ensures { IfOk result (λ rows. rows.items ≡ old.items ++ rows_of_pair_in (topology_of machine.now) (history_of machine.now) consumer producer) }
{
    if !feeds(machine.flow.past.topology, producer, consumer) {
        return Ok(old);
    }
    let last = generation(machine.flow.past.lives, consumer, producer)?;
    push_generations(old, machine, consumer, producer, last)
}

/// Puts the rows of one consumer behind the others, by producer.
fn push_consumer(
    old: Vec<SubRow>,
    machine: &Machine<'_>,
    consumer: StageNo,
) -> Result<Vec<SubRow>, AllocError>
    requires { MachineStands machine.now }
    ensures { IfOk result (λ rows. rows.items ≡ old.items ++ rows_of_consumer_in (topology_of machine.now) (history_of machine.now) consumer (topology_of machine.now).stages) }
{
    let specs = machine.flow.past.topology.stages.as_slice();
    let mut rows = old;
    for spec in specs {
        rows = push_pair(rows, machine, consumer, spec.no)?;
    }
    Ok(rows)
}

/// A row for each pair that feeds and each of its generations, in order of consumers and then of producers.
pub(crate) fn sub_rows(alloc: Global, machine: &Machine<'_>) -> Result<Vec<SubRow>, AllocError>
    requires { MachineStands machine.now }
    ensures { IfOk result (λ rows. rows.items ≡ rows_of_all_in (topology_of machine.now) (history_of machine.now) (topology_of machine.now).stages) }
{
    let specs = machine.flow.past.topology.stages.as_slice();
    let mut rows = Vec::new(alloc);
    for spec in specs {
        rows = push_consumer(rows, machine, spec.no)?;
    }
    Ok(rows)
}
