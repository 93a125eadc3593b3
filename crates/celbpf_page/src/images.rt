//! The calls on images of policies.
ghost use Rattle.celbpf_page.specs.Images.{ListsToRoom};
ghost use Rattle.celbpf_page.specs.Sessions.{documents_given, DebugsToRoom};

use crate::debugged::Debugged;
use crate::listings::listing_in;
use crate::output::write_reply;
use crate::sessions::replies_to;
use std::alloc::Global;

/// Lists the code of the image in a file. The text is the listing, or the refusal's line.
#[unsafe(no_mangle)]
pub extern "C" fn celbpf_page_list(
    alloc: Global,
    image: &[u8],
    room: &mut [u8],
    len: &mut usize,
) -> u32
    ensures { ListsToRoom image.now result room.old room.new len.new }
{
    let text = listing_in(alloc, image);
    write_reply(alloc, text, room, len)
}

/// Debugs the run of an image on documents. The text has the replies to the commands, which are lines
/// as `celbpf debug` reads them, or it is the refusal's line. If a document has no bytes, there is no
/// such document.
#[unsafe(no_mangle)]
pub extern "C" fn celbpf_page_debug(
    alloc: Global,
    image: &[u8],
    review: &[u8],
    namespace: &[u8],
    params: &[u8],
    commands: &[u8],
    room: &mut [u8],
    len: &mut usize,
) -> u32
    ensures { DebugsToRoom (documents_given image.now review.now namespace.now params.now) commands.now result room.old room.new len.new }
{
    let debugged = Debugged {
        image,
        review,
        namespace,
        params,
    };
    let text = replies_to(alloc, debugged, commands);
    write_reply(alloc, text, room, len)
}
