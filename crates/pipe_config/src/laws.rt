//! The law that the topology of faultless settings is sound.

ghost use Rattle.std.specs.Prelude.{◌≡◌, []};
ghost use Rattle.pipe_types.specs.Sound.{IsSound};
ghost use Rattle.config_judge.specs.Judge.{faults_in};
ghost use Rattle.config_build.specs.Build.{topology_in};
ghost use Rattle.pipe_config.specs.Fit.{IsFit};

use config_settings::settings::Settings;

/// The topology of settings in their ranges, in which nothing is at fault, is sound.
pub fn sound_when_fit(settings: &Settings)
    requires fit { IsFit settings.now }
    requires no_fault { faults_in settings.now ≡ [] }
    ensures { IsSound (topology_in settings.now) }
{}
