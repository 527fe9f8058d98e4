//! Boxes as plain data, and the bodies that hold them.

ghost use Rattle.std.specs.Prelude.{◌≡◌, IsTrue, OnOk, OnErr, None, option_map};
ghost use Rattle.stage_callback.specs.Callbacks.{can_arm};
ghost use Rattle.stage_bodies.specs.Seen.{BoxSeen};
ghost use Rattle.box_stock.specs.Lends.{IsSameBox, IsFreshBox, bare_body, body_with};

use body_jobs::Body;
use pipe_edges::{ByteSink, ByteSource};
use pipe_types::topology::{Kind, StageSpec};
use stage_bodies::Works;
use stage_callback::Callback;
use std::alloc::AllocError;

/// A callback in its box, as contracts see it.
pub trait Boxed: Drop {
    ghost seen: { Self → BoxSeen };

    fn kind_of(&self) -> Kind
        ensures { result ≡ (seen self.now).kind };

    /// Arms it with a spec. The error is want of memory.
    fn arm_with(&mut self, stage: &StageSpec) -> Result<(), AllocError>
        requires { IsTrue (can_arm stage.now) }
        ensures armed { OnOk result (IsFreshBox stage.now (seen self.old) (seen self.new)) }
        ensures refused { OnErr result (IsSameBox (seen self.old) (seen self.new)) };
}

impl Boxed for Box<dyn Callback + Send> {
    ghost seen = { λ c. record {
      kind = (Callback-box c).kind c.value;
      spec = (Callback-box c).spec c.value;
      count = (Callback-box c).count c.value;
      calls = (Callback-box c).calls c.value;
      bad = (Callback-box c).bad c.value;
      resets = (Callback-box c).resets c.value;
      law = (Callback-box c).law c.value;
      told = (Callback-box c).told c.value;
      said = (Callback-box c).said c.value;
    } };

    fn kind_of(&self) -> Kind {
        self.kind()
    }

    fn arm_with(&mut self, stage: &StageSpec) -> Result<(), AllocError> {
        self.arm(stage)
    }
}

/// A body that may hold a box.
pub trait Carries<C: Boxed>: Works {
    /// A body that holds nothing.
    fn bare() -> Self
        ensures { Self.look result ≡ bare_body };

    /// A body that holds the box alone.
    fn with_box(callback: C) -> Self
        ensures { Self.look result ≡ body_with (C.seen callback) };

    /// Takes the box out.
    fn take_box(&mut self) -> Option<C>
        ensures out { option_map C.seen result ≡ (Self.look self.old).callback }
        ensures rest { Self.look self.new ≡ record (Self.look self.old) { callback = None } };
}

impl<S: ByteSource + Drop, K: ByteSink + Drop> Carries<Box<dyn Callback + Send>> for Body<S, K> {
    fn bare() -> Self {
        Body {
            callback: None,
            source: None,
            sink: None,
        }
    }

    fn with_box(callback: Box<dyn Callback + Send>) -> Self {
        Body {
            callback: Some(callback),
            source: None,
            sink: None,
        }
    }

    fn take_box(&mut self) -> Option<Box<dyn Callback + Send>> {
        self.callback.take()
    }
}
