//! The control source of a run: its lines are read one a round, and obeyed or refused.
//!
//! `obey_line` appends the step that a control line asks for: a kill of a live stage, the begin of the drain, or that the
//! line is refused. `read_control` is the part of a round that reads the next line. What a journal has to do with its
//! control source is `KeepsControl`; what a whole run says of it is `IsControlRead`.
//! The other functions are laws: each does nothing, and its clause states the law.
#![tactic(auto)]

ghost use Rattle.std.specs.Prelude.{◌≡◌, ◌∷◌, [], ℕ, List, true, false, IsTrue, IfSome, Option};
ghost use Rattle.pipe_types.specs.{declared.step.Step.{Step}, declared.topology.Topology.{Topology}, Numbers.{stage}, Sound.{IsSound}};
ghost use Rattle.pipe_model.specs.{History.{History}, Legal.{is_legal, ends_source}, Outside.{is_control}};
ghost use Rattle.stage_bodies.specs.Seen.{LineSeen};
ghost use Rattle.control_lines.specs.{Steps.{begins, AddsControl}, Keeping.{KeepsLines, KeepsControl, KeepsControlPartly, IsFresh}, Obeyed.{IsControlRead}, Rest.{LeavesAtRest}};

mod orders;
mod reading;

pub use orders::obey_line;
pub use reading::read_control;

/// The empty journal keeps to a control source of which nothing was read, and to none.
pub fn fresh_control_sources_are_kept()
    ensures { (topology : Topology) (opened : Option LineSeen) → IfSome opened IsFresh → KeepsControl topology [] 0 opened opened }
{}

/// A step that does not come from the control source and begins no job leaves it where it stands.
pub fn other_steps_keep_control()
    ensures { (topology : Topology) (before : History) (step : Step) (jobs : ℕ) (opened now : Option LineSeen) →
        is_control step ≡ false → ends_source (stage 0) step ≡ false → begins step ≡ false →
        KeepsControl topology before jobs opened now → KeepsControl topology (step ∷ before) jobs opened now }
{}

/// One job may be begun behind a reading.
pub fn jobs_keep_control()
    ensures { (topology : Topology) (before : History) (step : Step) (opened now : Option LineSeen) →
        begins step ≡ true → KeepsControl topology before 1 opened now → KeepsControl topology (step ∷ before) 0 opened now }
{}

/// No job need be begun behind a reading.
pub fn readings_need_no_job()
    ensures { (topology : Topology) (before : History) (opened now : Option LineSeen) →
        KeepsControl topology before 1 opened now → KeepsControl topology before 0 opened now }
{}

/// What is kept is kept in part.
pub fn control_is_kept_in_part()
    ensures { (topology : Topology) (before : History) (opened now : Option LineSeen) →
        KeepsControl topology before 0 opened now → KeepsControlPartly topology before opened now }
{}

/// Steps from the control source leave a run at rest, with less work to do.
pub fn control_steps_leave_at_rest()
    ensures { (topology : Topology) (old new : History) →
        IsSound topology → IsTrue (is_legal topology new) → AddsControl old new → LeavesAtRest topology old new }
{}

/// A control source that is kept, also in part, was read as a run says.
pub fn control_sources_are_read()
    ensures { (topology : Topology) (before : History) (lost : List (List ℕ)) (opened now : LineSeen) →
        opened.source.taken ≡ [] → opened.source.faults ≡ 0 → opened.source.waits ≡ 0 →
        KeepsLines topology before 0 lost opened now → IsControlRead topology before now.source }
{}
