//! What a call comes to: a report with its texts and its status, or why there is none; and how that is written.
//!
//! `texts_of` makes the texts of a run from its core: the journal and the acknowledgements, where they are shown, and the report.
//! `legal_text` says what the steps of a legal journal come to, which an audit writes.
//! `write_verdict` writes a report to the output or the line of a refusal to the error output, or both where the sink of live
//! acknowledgements failed, and answers the status.
#![tactic(auto)]

mod audits;
mod texts;
mod verdict;

pub use audits::{AuditFault, legal_text};
pub use journal_audit::{Auditing, Summary, Verdict as Judgement};
pub use texts::{places_of, texts_of};
pub use verdict::{Refusal, Shows, Texts, Verdict, write_verdict};
