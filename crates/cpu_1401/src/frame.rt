//! What a step can see and use of the devices.
ghost use Rattle.cpu_1401.specs.Frame.{StepLaw};

/// Does nothing: its contract is the law of every step, for a caller that feeds the hopper and empties stacker and
/// paper while the machine runs. A step reads, punches and prints at most one, and all that it sees of the devices is
/// the first card, whether the hopper is empty, and whether stacker and paper are full.
pub fn step_law()
    ensures { StepLaw }
{}
