//! Jobs that are out while the journal goes on.
//!
//! A job leaves with its body, other steps follow in the journal, and then its answer comes home. `IsAway`: what was true
//! of the job and of its body when they left. It stays true while no step answers the job, so the answer may be recorded
//! when it comes, live or late, and the body comes home as the journal says, or in part where the answer is not recorded.
//! Each function is a law: it does nothing, and its clause states the law. `proofs/` has the facts behind them.
#![tactic(auto)]

ghost use Rattle.std.specs.Prelude.{◌≡◌, ◌≢◌, ◌==◌, ◌++◌, ℕ, ◌∷◌, true, false, if◌then◌else◌, IsTrue, Option, Some, None};
ghost use Rattle.pipe_types.specs.{declared.numbers.Post.{Post}, declared.step.Step.{Step}, declared.topology.Topology.{Topology}, Sound.{IsSound}};
ghost use Rattle.pipe_model.specs.{History.{History, incarnation, now as now_of}, Legal.{is_legal, allows, owed}, Posts.{answers, puts_out}};
ghost use Rattle.stage_bodies.specs.{Seen.{BodySeen}, Jobs.{Both, IsDone, IsCutOff}, Posts.{place_at, IsJobOf, step_of, brings_records}, declared.job.Answer.{Answer}};
ghost use Rattle.stage_bodies.specs.{declared.job.Job.{Job}, declared.job.Outcome.{Outcome as Came}, Moments.{told_for}};
ghost use Rattle.body_laws.specs.{Keeps.{is_silent, KeepsBody, Keeps}, Lates.{late_step}, Ready.{IsBodyAt, Ready, WasTold}};
ghost use Rattle.job_laws.specs.Away.{IsAway, is_from_live, AreElsewhere, IsAnswerTo};

/// A job leaves with its body after the step that puts its post out; for a fetch its source is told the moment.
pub fn jobs_leave_with_their_bodies()
    ensures { (topology : Topology) (before : History) (step : Step) (job : Job) (body : BodySeen) (opened now : ℕ → Option BodySeen) →
        IsSound topology → IsTrue (is_legal topology (step ∷ before)) → puts_out step job.post ≡ true → IsJobOf topology (step ∷ before) job →
        now (place_at job.post) ≡ Some body → Keeps topology before opened now → Ready topology before now →
        IsAway topology (step ∷ before) (opened (place_at job.post)) job (told_for job.work (now_of (step ∷ before)) body) }
{}

/// So is a job away that is out now, with a body that stands where the journal leaves it and holds what the job needs.
#[tactic(auto, using(crate::proofs::Away::out_away))]
pub fn jobs_out_are_away()
    ensures { (topology : Topology) (before : History) (opened : Option BodySeen) (job : Job) (body : BodySeen) →
        IsJobOf topology before job → IsBodyAt topology before job.post body → Both (KeepsBody topology before job.post) opened (Some body) →
        WasTold before job.post.stage job.work body → IsAway topology before opened job body }
{}

/// A step that does not answer the job changes nothing of it: not its work, nor what the journal says of its body.
pub fn jobs_stay_away()
    ensures { (topology : Topology) (before : History) (step : Step) (opened : Option BodySeen) (job : Job) (body : BodySeen) →
        IsSound topology → IsTrue (is_legal topology (step ∷ before)) → answers step job.post ≡ false →
        IsAway topology before opened job body → IsAway topology (step ∷ before) opened job body }
{}

/// Nor do several.
pub fn jobs_stay_away_through()
    ensures { (topology : Topology) (later before : History) (opened : Option BodySeen) (job : Job) (body : BodySeen) →
        IsSound topology → IsTrue (is_legal topology (later ++ before)) → AreElsewhere later job.post →
        IsAway topology before opened job body → IsAway topology (later ++ before) opened job body }
{}

/// The answer to a job answers no other post, live or late.
pub fn answers_are_to_one_job()
    ensures { (topology : Topology) (before : History) (opened : Option BodySeen) (job : Job) (answer : Answer) (old new : BodySeen) (other : Post) →
        IsAway topology before opened job old → IsAnswerTo job answer → IsDone job.work answer.outcome old new → other ≢ job.post →
        (answers (step_of answer.post answer.outcome) other ≡ false) × (answers (late_step answer.post answer.incarnation answer.outcome) other ≡ false) }
{}

/// A step that answers no post of the topology answers no job that is away.
pub fn silent_steps_answer_no_job()
    ensures { (topology : Topology) (before : History) (step : Step) (opened : Option BodySeen) (job : Job) (body : BodySeen) →
        IsSound topology → IsTrue (is_legal topology before) → IsTrue (is_silent step) → IsAway topology before opened job body →
        answers step job.post ≡ false }
{}

/// While a job is out its stage is not restarted: the incarnation that it left from is the present one.
#[tactic(auto, using(crate::proofs::Away::of_present))]
pub fn jobs_away_are_of_the_present_incarnation()
    ensures { (topology : Topology) (before : History) (opened : Option BodySeen) (job : Job) (body : BodySeen) →
        IsTrue (is_legal topology before) → IsAway topology before opened job body → incarnation before job.post.stage ≡ job.incarnation }
{}

/// While its incarnation is live the job is out now, as when it left.
#[tactic(auto, using(crate::proofs::Away::live_out))]
pub fn live_jobs_are_out_now()
    ensures { (topology : Topology) (before : History) (opened : Option BodySeen) (job : Job) (body : BodySeen) →
        IsTrue (is_legal topology before) → IsAway topology before opened job body → is_from_live topology before job ≡ true →
        IsJobOf topology before job }
{}

/// The answer of a live incarnation may be recorded while nothing is owed.
#[tactic(auto, using(crate::proofs::Away::live_recorded))]
pub fn live_answers_may_be_recorded()
    ensures { (topology : Topology) (before : History) (opened : Option BodySeen) (job : Job) (answer : Answer) (old new : BodySeen) →
        IsSound topology → IsTrue (is_legal topology before) → owed topology before ≡ None →
        IsAway topology before opened job old → is_from_live topology before job ≡ true → IsAnswerTo job answer → IsDone job.work answer.outcome old new →
        IsTrue (allows topology before (step_of answer.post answer.outcome)) }
{}

/// The answer of a killed incarnation may be recorded as late while nothing is owed, after a halt too.
#[tactic(auto, using(crate::proofs::Away::late_recorded))]
pub fn late_answers_may_be_recorded()
    ensures { (topology : Topology) (before : History) (opened : Option BodySeen) (job : Job) (answer : Answer) (old new : BodySeen) →
        IsSound topology → IsTrue (is_legal topology before) → owed topology before ≡ None →
        IsAway topology before opened job old → is_from_live topology before job ≡ false → IsAnswerTo job answer → IsDone job.work answer.outcome old new →
        IsTrue (allows topology before (late_step answer.post answer.incarnation answer.outcome)) }
{}

/// With the step of its answer the body comes home, and all stand where the journal leaves them.
pub fn live_answers_bring_bodies_home()
    ensures { (topology : Topology) (before : History) (job : Job) (answer : Answer) (old new : BodySeen) (opened now after : ℕ → Option BodySeen) →
        IsSound topology → IsTrue (is_legal topology (step_of answer.post answer.outcome ∷ before)) →
        IsAway topology before (opened (place_at job.post)) job old → is_from_live topology before job ≡ true → IsAnswerTo job answer → IsDone job.work answer.outcome old new →
        ((s : ℕ) → after s ≡ (if place_at job.post == s then Some new else now s)) →
        Keeps topology before opened now → Keeps topology (step_of answer.post answer.outcome ∷ before) opened after }
{}

/// And ready.
pub fn live_answers_bring_bodies_home_ready()
    ensures { (topology : Topology) (before : History) (opened : Option BodySeen) (job : Job) (answer : Answer) (old new : BodySeen) (now after : ℕ → Option BodySeen) →
        IsSound topology → IsTrue (is_legal topology (step_of answer.post answer.outcome ∷ before)) →
        IsAway topology before opened job old → is_from_live topology before job ≡ true → IsAnswerTo job answer → IsDone job.work answer.outcome old new →
        ((s : ℕ) → after s ≡ (if place_at job.post == s then Some new else now s)) →
        Ready topology before now → Ready topology (step_of answer.post answer.outcome ∷ before) after }
{}

/// So it does with the step of a late answer.
pub fn late_answers_bring_bodies_home()
    ensures { (topology : Topology) (before : History) (job : Job) (answer : Answer) (old new : BodySeen) (opened now after : ℕ → Option BodySeen) →
        IsSound topology → IsTrue (is_legal topology (late_step answer.post answer.incarnation answer.outcome ∷ before)) →
        IsAway topology before (opened (place_at job.post)) job old → IsAnswerTo job answer → IsDone job.work answer.outcome old new →
        ((s : ℕ) → after s ≡ (if place_at job.post == s then Some new else now s)) →
        Keeps topology before opened now → Keeps topology (late_step answer.post answer.incarnation answer.outcome ∷ before) opened after }
{}

/// And ready.
pub fn late_answers_bring_bodies_home_ready()
    ensures { (topology : Topology) (before : History) (opened : Option BodySeen) (job : Job) (answer : Answer) (old new : BodySeen) (now after : ℕ → Option BodySeen) →
        IsSound topology → IsTrue (is_legal topology (late_step answer.post answer.incarnation answer.outcome ∷ before)) →
        IsAway topology before opened job old → IsAnswerTo job answer → IsDone job.work answer.outcome old new →
        ((s : ℕ) → after s ≡ (if place_at job.post == s then Some new else now s)) →
        Ready topology before now → Ready topology (late_step answer.post answer.incarnation answer.outcome ∷ before) after }
{}

/// A job that was cut off for want of memory brings its body home where the journal has it, in part, live or killed.
pub fn cut_off_jobs_bring_bodies_home()
    ensures { (topology : Topology) (before : History) (job : Job) (old new : BodySeen) (opened now after : ℕ → Option BodySeen) →
        IsSound topology → IsAway topology before (opened (place_at job.post)) job old → IsCutOff old new →
        ((s : ℕ) → after s ≡ (if place_at job.post == s then Some new else now s)) →
        Keeps topology before opened now → Keeps topology before opened after }
{}

/// So does a job that brought records which are not recorded: they are lost.
pub fn unrecorded_answers_bring_bodies_home()
    ensures { (topology : Topology) (before : History) (job : Job) (outcome : Came) (old new : BodySeen) (opened now after : ℕ → Option BodySeen) →
        IsSound topology → IsAway topology before (opened (place_at job.post)) job old → IsTrue (brings_records outcome) → IsDone job.work outcome old new →
        ((s : ℕ) → after s ≡ (if place_at job.post == s then Some new else now s)) →
        Keeps topology before opened now → Keeps topology before opened after }
{}

/// A body that comes home with no step of its answer leaves the others ready.
pub fn bodies_may_come_home()
    ensures { (topology : Topology) (before : History) (opened : Option BodySeen) (job : Job) (old new : BodySeen) (now after : ℕ → Option BodySeen) →
        IsSound topology → IsAway topology before opened job old → ((s : ℕ) → after s ≡ (if place_at job.post == s then Some new else now s)) →
        Ready topology before now → Ready topology before after }
{}
