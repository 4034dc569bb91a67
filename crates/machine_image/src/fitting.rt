//! The command by which a machine is fitted.
ghost use Rattle.std.specs.Prelude.{◌≡◌};
ghost use Rattle.std.specs.Option.{option_to_list};
ghost use Rattle.machine_tables.specs.Features.{are_some};
ghost use Rattle.machine_image.specs.Loading.{fit_commands};

use machine_commands::Command;
use machine_tables::Features;

/// The command that fits a machine with features. For none there is no command, and a machine that begins so is as it is
/// at power-on.
pub fn fit_command(features: Features) -> Option<Command>
    ensures { option_to_list result ≡ fit_commands features }
{
    if features.are_some() {
        Some(Command::Fit(features))
    } else {
        None
    }
}
