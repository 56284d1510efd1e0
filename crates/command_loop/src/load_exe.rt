//! Loads the object of the command line.

ghost use Rattle.std.specs.Prelude.{◌≡◌, option_map, string_bytes, MatchResult, Some};
ghost use Rattle.module_map.specs.World.{no_modules};
ghost use Rattle.command_loop.specs.Output.{IsRefused};
ghost use Rattle.command_loop.specs.Private.Progress.{HasStarted};

use io_streams::{ExeFault, Objects};
use module_map::Modules;

/// Fetches an object from the source and loads it as `exe` at base 0.
fn load_exe<O: Objects>(path: &str, modules: &mut Modules, source: &mut O) -> Result<(), ExeFault>
    requires { modules.old.world ≡ no_modules }
    ensures { MatchResult result
        (λ _. HasStarted (Some path.now) (O.asked source.old)
        (O.asked source.new) modules.new.world)
        (λ why. IsRefused (Some path.now) (O.asked source.old) (O.asked source.new) why) }
{
    match source.fetch(path) {
        Err(fault) => Err(ExeFault::NotFetched(fault)),
        Ok(bytes) => match modules.load("exe", 0, bytes) {
            Err(fault) => Err(ExeFault::NotLoaded(fault)),
            Ok(_) => Ok(()),
        },
    }
}

/// Loads the object of the command line, if there is one.
pub fn begin<O: Objects>(
    exe: &Option<String>,
    modules: &mut Modules,
    source: &mut O,
) -> Result<(), ExeFault>
    requires { modules.old.world ≡ no_modules }
    ensures { MatchResult result
        (λ _. HasStarted (option_map string_bytes exe.now) (O.asked source.old)
        (O.asked source.new) modules.new.world)
        (λ why. IsRefused (option_map string_bytes exe.now) (O.asked source.old)
        (O.asked source.new) why) }
{
    match exe {
        None => Ok(()),
        Some(path) => load_exe(path.as_str(), modules, source),
    }
}
