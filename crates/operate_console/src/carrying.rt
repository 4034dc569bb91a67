//! Commands carried out in turn.
ghost use Rattle.std.specs.Prelude.{◌≡◌, false, IfErr, OnOk};
ghost use Rattle.operate_sitting.specs.Sitting.{journal_of};
ghost use Rattle.operate_sitting.specs.Tending.{carried_on};
ghost use Rattle.operate_console.specs.Ends.{is_unkept_fault, was_unkept};
ghost use Rattle.operate_console.specs.Line.{CarriedFirst, CarriedSome};

use cpu_1401::Command;
use operate_sitting::Sitting;
use room_alone::{Carried, Keeper, RoomFault};

/// Carries out commands in turn, up to the first that is refused, or whose entry isn't kept.
///
/// # Errors
///
/// `Unkept` if an entry isn't kept; else as those of `Sitting::carry`. What was carried out stays.
#[tactic(auto, using(crate::proofs::LineLemmas::all_carried, crate::proofs::LineLemmas::first_carried, crate::proofs::LineLemmas::one_carried, crate::proofs::LineLemmas::refused, crate::proofs::LineLemmas::some_carried, crate::proofs::LineLemmas::some_refused, crate::proofs::EndLemmas::not_unkept))]
pub(crate) fn carry_all<K: Keeper + Drop>(
    sitting: &mut Sitting<K>,
    commands: &[Command],
) -> Result<(), RoomFault>
    requires { sitting.old.account.failed ≡ false }
    ensures all { OnOk result (journal_of sitting.new
        ≡ carried_on sitting.old.account.room.size (journal_of sitting.old) commands.now) }
    ensures first { CarriedFirst sitting.old.account.room.size commands.now
        (journal_of sitting.old) (journal_of sitting.new) }

    // A command that the room refuses isn't carried out, and none after it.
    ensures some { IfErr result (λ fault. is_unkept_fault fault ≡ false → CarriedSome sitting.old.account.room.size
        commands.now (journal_of sitting.old) (journal_of sitting.new)) }

    // No answer may go out whose entry isn't kept.
    ensures kept { sitting.new.account.failed ≡ was_unkept result }
    ensures size { sitting.new.account.room.size ≡ sitting.old.account.room.size }
    ensures notes { sitting.new.notes ≡ sitting.old.notes }
{
    let [command, more @ ..] = commands else {
        return Ok(());
    };
    match sitting.carry(*command) {
        Ok(Carried { kept, .. }) => {
            if kept {
                carry_all(sitting, more)
            } else {
                Err(RoomFault::Unkept)
            }
        }
        Err(fault) => Err(fault),
    }
}
