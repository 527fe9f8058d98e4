//! What follows for the lines of a merge.

ghost use Rattle.std.specs.Prelude.{◌≡◌, ℕ, List, Some, IsTrue, slice_get};
ghost use Rattle.pipe_edges.specs.declared.reading.LineEnd.TheVariants.{End};
ghost use Rattle.source_lines.specs.{Seen.{SourceSeen}, Cut.{AreFirstLines, AreAllLines}};
ghost use Rattle.line_merge.specs.{Items.{lines_from}, Seen.{MergeSeen, AreMergedFrom}};

/// The lines that were given from a place are the first lines of its source.
pub fn merged_lines_are_first()
    ensures { (opened : List SourceSeen) (now : MergeSeen) (given : List (ℕ × List ℕ)) (place : ℕ) (source : SourceSeen) →
        AreMergedFrom opened now given → slice_get opened place ≡ Some source → IsTrue source.told → AreFirstLines source.left (lines_from place given) }
{}

/// Where every source has ended, they are all its lines, and none is too long.
pub fn whole_merges_have_all_lines()
    ensures { (opened : List SourceSeen) (now : MergeSeen) (given : List (ℕ × List ℕ)) (place : ℕ) (source : SourceSeen) →
        AreMergedFrom opened now given → now.end ≡ Some End → slice_get opened place ≡ Some source → IsTrue source.told → AreAllLines source.left (lines_from place given) }
{}
