//! The routes of rules.

ghost use Rattle.std.specs.{Prelude.{◌≡◌, length, option_map, IfOk}, List.{list_any}};
ghost use Rattle.config_rule.specs.RuleText.{rule_of, form_rule};
ghost use Rattle.config_table.specs.Fault.{least};
ghost use Rattle.config_judge.specs.Judge as judge;

use config_rule::form::{RuleForm, batcher_number, parse};
use config_settings::settings::{BatcherSettings, ProcessorSettings, Settings, SupervisorSettings};
use config_table::fault::{ConfigFault, at_place, sooner, under};
use pipe_types::bytes::Text;
use pipe_types::topology::Kind;
use std::alloc::{AllocError, Global};

fn form_is_astray(known: &[Text], form: Option<RuleForm>) -> bool
    ensures { result ≡ judge.is_astray (length known.now) (option_map (form_rule known.now) form.entry) }
{
    match form {
        Some(RuleForm::Route(_, batcher, _)) => known.len() <= batcher_number(known, batcher),
        _ => false,
    }
}

/// Whether the text is a route to no batcher of these.
fn is_astray(known: &[Text], text: &str) -> bool
    ensures { result ≡ judge.is_astray (length known.now) (rule_of known.now text.now) }
{
    form_is_astray(known, parse(text.as_bytes()))
}

fn form_leads_to(known: &[Text], place: usize, form: Option<RuleForm>) -> bool
    ensures { result ≡ judge.leads_to place (option_map (form_rule known.now) form.entry) }
{
    match form {
        Some(RuleForm::Route(_, batcher, _)) => batcher_number(known, batcher) == place,
        _ => false,
    }
}

/// Whether the text is a route to the batcher at this place.
fn leads_to(known: &[Text], place: usize, text: &str) -> bool
    ensures { result ≡ judge.leads_to place (rule_of known.now text.now) }
{
    form_leads_to(known, place, parse(text.as_bytes()))
}

/// Whether one of the texts is a route to the batcher at this place.
fn some_leads_to(known: &[Text], steps: &[Text], place: usize) -> bool
    ensures { result ≡ list_any (λ text. judge.leads_to place (rule_of known.now text)) steps.now }
{
    steps
        .iter()
        .any(|text| leads_to(known, place, text.as_str()))
}

fn route_fault(
    alloc: Global,
    path: &str,
    place: usize,
    astray: bool,
) -> Result<Option<ConfigFault>, AllocError>
    ensures { IfOk result (λ found. found ≡ least (judge.route_faults path.now place astray)) }
{
    if !astray {
        return Ok(None);
    }
    Ok(Some(ConfigFault::UnknownBatcher(at_place(alloc, path, place)?)))
}

/// The first route to no batcher of these.
fn astray_route(
    alloc: Global,
    path: &str,
    known: &[Text],
    texts: &[Text],
) -> Result<Option<ConfigFault>, AllocError>
    ensures { IfOk result (λ found. found ≡ least (judge.astray_routes path.now known.now 0 texts.now)) }
{
    let mut found = None;
    for (i, text) in texts.iter().enumerate() {
        let astray = is_astray(known, text.as_str());
        let fault = route_fault(alloc, path, i, astray)?;
        found = sooner(found, fault);
    }
    Ok(found)
}

/// The first route of a batcher's rules, which may name none.
fn batcher_route(
    alloc: Global,
    place: usize,
    batcher: &BatcherSettings,
) -> Result<Option<ConfigFault>, AllocError>
    ensures { IfOk result (λ found. found ≡ least (judge.batcher_route place batcher.now)) }
{
    let path = at_place(alloc, "batcher", place)?;
    let path = under(alloc, path.as_str(), "steps")?;
    astray_route(alloc, path.as_str(), &[], batcher.handler.steps.as_slice())
}

fn batcher_routes(
    alloc: Global,
    batchers: &[BatcherSettings],
) -> Result<Option<ConfigFault>, AllocError>
    ensures { IfOk result (λ found. found ≡ least (judge.batcher_routes 0 batchers.now)) }
{
    let mut found = None;
    for (i, batcher) in batchers.iter().enumerate() {
        let fault = batcher_route(alloc, i, batcher)?;
        found = sooner(found, fault);
    }
    Ok(found)
}

fn processor_routes(
    alloc: Global,
    known: &[Text],
    processors: &Option<ProcessorSettings>,
) -> Result<Option<ConfigFault>, AllocError>
    ensures { IfOk result (λ found. found ≡ least (judge.processor_routes known.now processors.now)) }
{
    match processors {
        None => Ok(None),
        Some(processors) => {
            let path = under(alloc, "processors", "steps")?;
            astray_route(
                alloc,
                path.as_str(),
                known,
                processors.handler.steps.as_slice(),
            )
        }
    }
}

fn supervisor_routes(
    alloc: Global,
    supervisor: &Option<SupervisorSettings>,
) -> Result<Option<ConfigFault>, AllocError>
    ensures { IfOk result (λ found. found ≡ least (judge.supervisor_routes supervisor.now)) }
{
    match supervisor {
        None => Ok(None),
        Some(supervisor) => {
            let path = under(alloc, "supervisor", "steps")?;
            astray_route(
                alloc,
                path.as_str(),
                &[],
                supervisor.handler.steps.as_slice(),
            )
        }
    }
}

/// The first route that names no batcher it may name.
#[tactic(auto, using(crate::proofs::Steps::least_of_three))]
pub fn routes_fault(
    alloc: Global,
    known: &[Text],
    settings: &Settings,
) -> Result<Option<ConfigFault>, AllocError>
    ensures { IfOk result (λ found. found ≡ least (judge.routes_with known.now settings.now)) }
{
    let batchers = batcher_routes(alloc, settings.batchers.as_slice())?;
    let processors = processor_routes(alloc, known, &settings.processors)?;
    let supervisor = supervisor_routes(alloc, &settings.supervisor)?;
    Ok(sooner(batchers, sooner(processors, supervisor)))
}

fn is_left_out(known: &[Text], steps: &[Text], place: usize) -> bool
    ensures { result ≡ judge.is_left_out known.now steps.now place }
{
    place != 0 && !some_leads_to(known, steps, place)
}

fn left_out_fault(
    alloc: Global,
    place: usize,
    left_out: bool,
) -> Result<Option<ConfigFault>, AllocError>
    ensures { IfOk result (λ found. found ≡ least (judge.left_out_faults place left_out)) }
{
    if !left_out {
        return Ok(None);
    }
    Ok(Some(ConfigFault::Unreachable(at_place(alloc, "batcher", place)?)))
}

/// The first batcher but the one at place 0 that no route names.
fn left_out(
    alloc: Global,
    known: &[Text],
    steps: &[Text],
    batchers: &[BatcherSettings],
) -> Result<Option<ConfigFault>, AllocError>
    ensures { IfOk result (λ found. found ≡ least (judge.left_out known.now steps.now 0 batchers.now)) }
{
    let mut found = None;
    for i in 0..batchers.len() {
        let fault = left_out_fault(alloc, i, is_left_out(known, steps, i))?;
        found = sooner(found, fault);
    }
    Ok(found)
}

/// The first batcher that no message reaches.
pub fn unreachable_fault(
    alloc: Global,
    known: &[Text],
    settings: &Settings,
) -> Result<Option<ConfigFault>, AllocError>
    ensures { IfOk result (λ found. found ≡ least (judge.unreachable_with known.now settings.now.batchers settings.now.processors)) }
{
    match &settings.processors {
        None => Ok(None),
        Some(processors) => match processors.handler.kind {
            Kind::Steps => left_out(
                alloc,
                known,
                processors.handler.steps.as_slice(),
                settings.batchers.as_slice(),
            ),
            Kind::Lines | Kind::Own => Ok(None),
        },
    }
}
