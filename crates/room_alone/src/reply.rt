//! What a line is answered.
ghost use Rattle.std.specs.Prelude.{◌≡◌, IfOk, Some};
ghost use Rattle.room_alone.specs.ReplyText.{bytes_of};

use console_text::{LineFault, fault_text, glance_text, reply_text};
use machine_commands::{Answer, Glance, GlanceFault, RoomFault};
use std::alloc::{AllocError, Global};

/// What a line is answered.
#[derive(Clone, Copy)]
pub enum Reply {
    /// The machine's answer to a command.
    Answer(Answer),
    /// Why the room can't carry a command out.
    RoomFault(RoomFault),
    /// What a glance shows.
    Glance(Glance),
    /// Why a glance shows nothing.
    GlanceFault(GlanceFault),
    /// Why the line says nothing that the console knows.
    LineFault(LineFault),
    /// The end of the session.
    Bye,
}

/// A reply's text and a line feed.
#[tactic(auto, unfolding(crate::specs::ReplyText::text_of_reply))]
pub fn reply_bytes(alloc: Global, reply: Reply) -> Result<Vec<u8>, AllocError>
    ensures { IfOk result (λ bytes. bytes.items ≡ bytes_of (Some reply)) }
{
    let mut bytes = match reply {
        Reply::Answer(answer) => reply_text(alloc, &answer)?,
        Reply::RoomFault(fault) => Vec::from_slice(alloc, fault.text().as_bytes())?,
        Reply::Glance(glance) => glance_text(alloc, glance.after, glance.cell)?,
        Reply::GlanceFault(fault) => Vec::from_slice(alloc, fault.text().as_bytes())?,
        Reply::LineFault(fault) => Vec::from_slice(alloc, fault_text(fault))?,
        Reply::Bye => Vec::from_slice(alloc, b"BYE")?,
    };
    bytes.push(b'\n')?;
    Ok(bytes)
}
