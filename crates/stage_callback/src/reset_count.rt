//! The count of resets.

ghost use Rattle.stage_callback.specs.Laws.{RoseExactly};

/// Counts a reset, as a callback of the kind `own` does in `reset`.
pub fn count_reset(resets: &mut u64)
    ensures { RoseExactly 1 resets.old resets.new }
{
    *resets = resets.saturating_add(1);
}
