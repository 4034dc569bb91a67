//! A machine made ready: it is fitted with features, and an image is loaded.
ghost use Rattle.std.specs.Prelude.{◌≡◌, ◌++◌, ◌↔◌, ◌∷◌, [], true, map, nat_lt, IfErr, OnOk, OnErr};
ghost use Rattle.std.specs.List.{list_all};
ghost use Rattle.machine_image.specs.Image.{is_inside};
ghost use Rattle.room_alone.specs.Journal.{is_full, refusal_of};
ghost use Rattle.console_1401.specs.ImageLoading.{done_entry, fit_entries, load_entries, is_within};
ghost use Rattle.console_1401.specs.ImageLoading.{WentOnByFewer};

use machine_image::{Image, LentImage, LoadCommands, fit_command};
use machine_tables::Features;
use room_1401::{Command, Room, RoomFault};
use room_alone::OWN_SEAT;

/// Loads an image: the console deposits each segment in order, and sets the I register to the entry. Each command is
/// recorded as one of seat 0, answered `Done`.
///
/// # Errors
///
/// `JournalFull` if earlier commands have filled the journal, or `Memory` if there is no room for one more of these.
/// Those before it are carried out and recorded.
#[tactic(auto, using(crate::proofs::ImageLoadingLemmas::all_within))]
pub fn put_image(room: &mut Room, image: &Image) -> Result<(), RoomFault>
    requires size { image.now.size ≡ room.old.size }
    requires segments { list_all (is_inside image.now.size) image.now.segments ≡ true }
    requires start { nat_lt image.now.start image.now.size ≡ true }
    ensures loaded { OnOk result (room.new.journal ≡ room.old.journal ++ load_entries image.now) }
    ensures stopped { OnErr result (WentOnByFewer room.old.journal room.new.journal (load_entries image.now)) }
    ensures full { IfErr result (λ fault. (fault ≡ RoomFault.JournalFull) ↔ (is_full room.new.journal ≡ true)) }
    ensures fault { IfErr result (λ fault. fault ≡ refusal_of room.new.journal) }
    ensures size { room.new.size ≡ room.old.size }
{
    put_commands(room, LoadCommands::of_kept(image))
}

/// The same of an image that is lent: one segment is held at a time.
///
/// # Errors
///
/// Those of `put_image`.
#[tactic(auto, using(crate::proofs::ImageLoadingLemmas::all_within))]
pub fn put_lent_image(room: &mut Room, image: &LentImage<'_>) -> Result<(), RoomFault>
    requires size { image.now.size ≡ room.old.size }
    requires segments { list_all (is_inside image.now.size) image.now.segments ≡ true }
    requires start { nat_lt image.now.start image.now.size ≡ true }
    ensures loaded { OnOk result (room.new.journal ≡ room.old.journal ++ load_entries image.now) }
    ensures stopped { OnErr result (WentOnByFewer room.old.journal room.new.journal (load_entries image.now)) }
    ensures full { IfErr result (λ fault. (fault ≡ RoomFault.JournalFull) ↔ (is_full room.new.journal ≡ true)) }
    ensures fault { IfErr result (λ fault. fault ≡ refusal_of room.new.journal) }
    ensures size { room.new.size ≡ room.old.size }
{
    put_commands(room, LoadCommands::of_lent(image))
}

/// Fits the machine of a room with features, if there are any. The command is recorded as one of seat 0, answered
/// `Done`.
///
/// # Errors
///
/// `JournalFull` if earlier commands have filled the journal, or `Memory` if there is no room for this one. Nothing was
/// done.
pub fn put_features(room: &mut Room, features: Features) -> Result<(), RoomFault>
    ensures fitted { OnOk result (room.new.journal ≡ room.old.journal ++ fit_entries features) }
    ensures err { OnErr result (room.new.journal ≡ room.old.journal) }
    ensures fault { IfErr result (λ fault. fault ≡ refusal_of room.old.journal) }
    ensures size { room.new.size ≡ room.old.size }
{
    match fit_command(features) {
        Some(command) => put_command(room, command),
        None => Ok(()),
    }
}

/// Carries commands out, in order. Each lies in core storage.
fn put_commands(room: &mut Room, commands: LoadCommands<'_>) -> Result<(), RoomFault>
    requires { list_all (is_within room.old.size) commands ≡ true }
    ensures loaded { OnOk result (room.new.journal ≡ room.old.journal ++ map done_entry commands.entry) }
    ensures stopped { OnErr result (WentOnByFewer room.old.journal room.new.journal (map done_entry commands.entry)) }
    ensures full { IfErr result (λ fault. (fault ≡ RoomFault.JournalFull) ↔ (is_full room.new.journal ≡ true)) }
    ensures fault { IfErr result (λ fault. fault ≡ refusal_of room.new.journal) }
    ensures size { room.new.size ≡ room.old.size }
{
    for command in commands {
        put_command(room, command)?;
    }
    Ok(())
}

/// Carries out a command that deposits cells in core storage, sets the I register to one of its places, or fits the
/// machine. It is recorded as one of seat 0, answered `Done`.
///
/// # Errors
///
/// `JournalFull` if earlier commands have filled the journal, or `Memory` if there is no room for this one. Nothing was
/// done.
#[tactic(auto, using(crate::proofs::ImageLoadingLemmas::done_within))]
pub fn put_command(room: &mut Room, command: Command) -> Result<(), RoomFault>
    requires { is_within room.old.size command ≡ true }
    ensures done { OnOk result (room.new.journal ≡ room.old.journal ++ done_entry command ∷ []) }
    ensures err { OnErr result (room.new.journal ≡ room.old.journal) }
    ensures fault { IfErr result (λ fault. fault ≡ refusal_of room.old.journal) }
    ensures size { room.new.size ≡ room.old.size }
{
    // The machine has as many places as the room says.
    let _machine = room.machine();
    match room.carry(OWN_SEAT, command) {
        Ok(_) => Ok(()),
        Err(fault) => Err(fault),
    }
}
