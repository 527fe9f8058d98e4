//! What leaves with a job.

ghost use Rattle.std.specs.Prelude.{◌≡◌, None, Some, option_map};
ghost use Rattle.stage_bodies.specs.Seen.{BodySeen, BoxSeen, sink_seen, feed_seen, with_source, with_callback};
ghost use Rattle.body_jobs.specs.Boxes.{box_of};

use crate::work::{run_work, start_over};
use pipe_edges::{ByteSink, ByteSource};
use stage_bodies::{Answer, Feed, FeedSources, Houses, Job, Works};
use stage_callback::Callback;
use std::alloc::{AllocError, Global};

/// The source, the sink and the callback of a post, as many of these as it needs.
#[derive(Drop)]
pub struct Body<S, K> {
    pub callback: Option<Box<dyn Callback + Send>>,
    pub source: Option<Feed<S>>,
    pub sink: Option<K>,
}

impl<S: ByteSource + Drop, K: ByteSink + Drop> Works for Body<S, K> {
    ghost look = { λ b. record {
      source = option_map (feed_seen S.ByteSource) b.source;
      sink = option_map (sink_seen K.told K.held K.faults) b.sink;
      callback = option_map (λ c. record {
        kind = (Callback-box c).kind c.value;
        spec = (Callback-box c).spec c.value;
        count = (Callback-box c).count c.value;
        calls = (Callback-box c).calls c.value;
        bad = (Callback-box c).bad c.value;
        resets = (Callback-box c).resets c.value;
        law = (Callback-box c).law c.value;
        told = (Callback-box c).told c.value;
        said = (Callback-box c).said c.value;
      }) b.callback;
    } };

    fn run_job(&mut self, alloc: Global, job: Job) -> Result<Answer, AllocError> {
        let Job {
            post,
            incarnation,
            work,
        } = job;
        let outcome = run_work(self, alloc, work)?;
        Ok(Answer {
            post,
            incarnation,
            outcome,
        })
    }

    fn reset(&mut self) {
        if let Some(callback) = &mut self.callback {
            start_over(callback);
        }
    }

    fn at(&mut self, now: u64) {
        if let Some(Feed::Lines(lines)) = &mut self.source {
            lines.at(now);
        }
    }
}

impl<S: ByteSource + Drop, K: ByteSink + Drop> Body<S, K> {
    pub fn put_box(&mut self, callback: Box<dyn Callback + Send>)
        ensures { let box = Callback-box callback in
            let value = callback.value in
            ⟦<Body<S, K> as Works>⟧.look self.new
            ≡ with_callback (box_of (box.kind value) (box.spec value) (box.count value) (box.calls value) (box.bad value) (box.resets value) (box.law value) (box.told value) (box.said value)) (⟦<Body<S, K> as Works>⟧.look self.old) }
    {
        self.callback = Some(callback);
    }

    /// Takes the callback out.
    pub fn take_box(&mut self) -> Option<Box<dyn Callback + Send>>
        ensures out { option_map (λ c. let box = Callback-box c in let value = c.value in
            box_of (box.kind value) (box.spec value) (box.count value) (box.calls value) (box.bad value) (box.resets value) (box.law value) (box.told value) (box.said value)) result
            ≡ (⟦<Body<S, K> as Works>⟧.look self.old).callback }
        ensures rest { ⟦<Body<S, K> as Works>⟧.look self.new ≡ record (⟦<Body<S, K> as Works>⟧.look self.old) { callback = None } }
    {
        self.callback.take()
    }
}

impl<S: ByteSource + Drop, K: ByteSink + Drop> Houses<S, K> for Body<S, K> {
    fn empty() -> Self {
        Body {
            callback: None,
            source: None,
            sink: None,
        }
    }

    fn put_source(&mut self, source: Feed<S>)
        ensures { ⟦<Body<S, K> as Works>⟧.look self.new ≡ with_source (feed_seen S.ByteSource source) (⟦<Body<S, K> as Works>⟧.look self.old) }
    {
        self.source = Some(source);
    }

    fn put_sink(&mut self, sink: K) {
        self.sink = Some(sink);
    }

    fn take_source(&mut self) -> Option<FeedSources<S>> {
        match self.source.take() {
            Some(feed) => Some(feed.into_sources()),
            None => None,
        }
    }

    fn take_sink(&mut self) -> Option<K> {
        self.sink.take()
    }
}
