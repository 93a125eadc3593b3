//! The output of the calls on images.
ghost use Rattle.std.specs.Prelude.{◌≡◌};
ghost use Rattle.celbpf_page.specs.Images.{image_status, text_view, WritesText};

use celbpf_calls::{run_status, write_done, write_refusal};
use cli::Refusal;
use std::alloc::Global;

/// Writes a text, or the line of a refusal. Returns the status.
pub fn write_reply(
    alloc: Global,
    reply: Result<Vec<u8>, Refusal>,
    room: &mut [u8],
    len: &mut usize,
) -> u32
    ensures { WritesText (text_view reply) result room.old room.new len.new }
{
    match reply {
        Ok(text) => write_done(&text, room, len),
        Err(refusal) => {
            write_refusal(alloc, refusal, room, len);
            image_status(refusal)
        }
    }
}

/// The status of a call that gives no text.
fn image_status(refusal: Refusal) -> u32
    ensures { result ≡ image_status refusal }
{
    match refusal {
        Refusal::Image(_) => 13,
        Refusal::Run(error) => run_status(error),
        _ => 9,
    }
}
