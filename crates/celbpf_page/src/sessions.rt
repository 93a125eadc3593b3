//! Sessions with the run of an image.
ghost use Rattle.std.specs.Prelude.{◌≡◌, IfOk};
ghost use Rattle.value_table.specs.Held.{held_contents};
ghost use Rattle.bpf_machine.specs.State.{start_state};
ghost use Rattle.celbpf_page.specs.Images.{text_view};
ghost use Rattle.celbpf_page.specs.Sessions.{documents_debugged, AreReplies, IsSessionText, StartsDebugging};

use crate::debugged::Debugged;
use crate::text::Text;
use admission::roots;
use celbpf_calls::given;
use cli::Refusal;
use debugger::{Counting, SessionError, session};
use loader::Image;
use std::alloc::Global;
use value_table::Table;

/// The replies of a session to these commands.
pub fn replies_to(alloc: Global, debugged: Debugged, commands: &[u8]) -> Result<Vec<u8>, Refusal>
    ensures { IsSessionText (documents_debugged debugged.entry) commands.now (text_view result) }
{
    match started(alloc, debugged) {
        Ok((image, table)) => match replies(alloc, image, table, commands) {
            Ok(text) => Ok(text),
            Err(_) => Err(Refusal::Memory),
        },
        Err(refusal) => Err(refusal),
    }
}

/// The image, and the roots of the documents.
fn started(alloc: Global, debugged: Debugged) -> Result<(Image, Table), Refusal>
    ensures { StartsDebugging (documents_debugged debugged.entry) (λ p. start_state p.0 (held_contents p.1)) result }
{
    let image = Image::read(alloc, debugged.image)?;
    let review = given(debugged.review);
    let namespace = given(debugged.namespace);
    let table = roots(alloc, review, namespace, given(debugged.params))?;
    Ok((image, table))
}

/// The replies of a session with the run of this image on this table.
fn replies(
    alloc: Global,
    image: Image,
    table: Table,
    commands: &[u8],
) -> Result<Vec<u8>, SessionError>
    ensures { IfOk result (λ t. AreReplies (start_state image (held_contents table)) commands.now t.items) }
{
    let mut input = Counting::new(commands);
    let mut output = Text::new(alloc);
    session(alloc, image, table, &mut input, &mut output)?;
    Ok(output.bytes)
}
