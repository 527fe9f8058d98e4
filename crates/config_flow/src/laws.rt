//! Laws of the topology, without code.

ghost use Rattle.std.specs.Prelude.{◌≡◌, ◌≤◌, true, Ok, length};
ghost use Rattle.pipe_types.specs.Sound.{IsSound};
ghost use Rattle.config_rule.specs.SourceText.{merged_in, may_be_source};
ghost use Rattle.pipe_config.specs.File.{topology_of};
ghost use Rattle.config_flow.specs.Flow.{flow_topology_of, flow_table};

/// The topology is sound, whatever its source and its prefix are.
pub fn flow_is_sound(source: &str, prefix: &str)
    ensures { IsSound (flow_topology_of source.now prefix.now) }
{}

/// A file with `version = 1`, one producer with `name = "source"` and `source = SOURCE`, and processors with
/// `concurrency = 1` and `steps = ["require PREFIX"]` gives the same topology. A source in a file has 1 to 4096
/// bytes, and names a merge where it begins with `many:`, so beyond that no file gives it.
pub fn file_gives_flow(source: &str, prefix: &str)
    requires given { 1 ≤ length source.now }
    requires short { length source.now ≤ 4096 }
    requires named { may_be_source (merged_in source.now) ≡ true }
    ensures { topology_of (flow_table source.now prefix.now) ≡ Ok (flow_topology_of source.now prefix.now) }
{}
