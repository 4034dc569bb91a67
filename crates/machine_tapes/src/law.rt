//! What holds of every step and every run with tape units.
ghost use Rattle.machine_tapes.specs.TapedFrame.{TapedStepLaw};
ghost use Rattle.machine_tapes.specs.TapesLaw.{TapesLaw};

use cpu_1401::step_law;

/// Does nothing: its contract says what a machine without reels does, and which records are read as they were written.
#[tactic(auto, using(crate::proofs::LawLemmas::tapes_laws))]
pub fn tapes_law()
    ensures { TapesLaw }
{}

/// Does nothing: its contract is the law of every step with tape units, which see and use of the devices what the
/// machine's own steps do (`step_law`).
pub fn taped_step_law()
    ensures { TapedStepLaw }
{
    step_law();
}
