//! Commands, as C gives them by value or by the kernel's words.

ghost use Rattle.std.specs.Prelude.{◌≡◌};
ghost use Rattle.mapdb_c.specs.RawCommands.{end_command, item_of, map_command, unmap_command};
ghost use Rattle.mapdb_c.specs.RawCommands.{window_given, word_map_command, word_page};
ghost use Rattle.mapdb_c.specs.RawCommands.{word_unmap_command};

use crate::faults::{item_status, word_status};
use crate::raw_places::{RawFpage, RawSpace, fpage_of, space_of, window_of};
use crate::statuses::Status;
use mapdb_fpage::{Fpage, MapItem, Rights};
use mapdb_replica::Command;

/// The map item of the kernel's two words.
fn item_of(first: u64, second: u64) -> Result<MapItem, Status>
    ensures { result ≡ item_of first second }
{
    match MapItem::from_words([first, second]) {
        Ok(item) => Ok(item),
        Err(fault) => Err(item_status(fault)),
    }
}

/// The receive window of a word.
fn window_of_word(word: u64) -> Result<Option<Fpage>, Status>
    ensures { result ≡ window_given word }
{
    Fpage::window_from_word(word).map_err(word_status)
}

/// The fpage and the rights of a word.
fn word_page(word: u64) -> Result<(Option<Fpage>, Rights), Status>
    ensures { result ≡ word_page word }
{
    Fpage::from_word(word).map_err(word_status)
}

/// The Map of an item that is given by value. What is wrong is looked for in the order of the
/// arguments.
pub fn map_command(
    sender: RawSpace,
    send_base: u64,
    page: &RawFpage,
    receiver: RawSpace,
    window: &RawFpage,
) -> Result<Command, Status>
    ensures { result ≡ map_command sender send_base page.now receiver window.now }
{
    let sender = space_of(sender)?;
    let (page, rights) = fpage_of(page)?;
    let receiver = space_of(receiver)?;
    let window = window_of(window)?;
    Ok(Command::Map {
        sender,
        item: MapItem {
            send_base,
            page,
            rights,
        },
        receiver,
        window,
    })
}

/// The Map of the kernel's words. What is wrong is looked for in the order of the arguments.
pub fn word_map_command(
    sender: RawSpace,
    first: u64,
    second: u64,
    receiver: RawSpace,
    window: u64,
) -> Result<Command, Status>
    ensures { result ≡ word_map_command sender first second receiver window }
{
    let sender = space_of(sender)?;
    let item = item_of(first, second)?;
    let receiver = space_of(receiver)?;
    let window = window_of_word(window)?;
    Ok(Command::Map {
        sender,
        item,
        receiver,
        window,
    })
}

/// The Unmap of an fpage that is given by value. A flush that is not 0 is one.
pub fn unmap_command(space: RawSpace, page: &RawFpage, flush: u32) -> Result<Command, Status>
    ensures { result ≡ unmap_command space page.now flush }
{
    let space = space_of(space)?;
    let (page, rights) = fpage_of(page)?;
    Ok(Command::Unmap {
        space,
        page,
        rights,
        flush: flush != 0,
    })
}

/// The Unmap of an fpage word. A flush that is not 0 is one.
pub fn word_unmap_command(space: RawSpace, word: u64, flush: u32) -> Result<Command, Status>
    ensures { result ≡ word_unmap_command space word flush }
{
    let space = space_of(space)?;
    let (page, rights) = word_page(word)?;
    Ok(Command::Unmap {
        space,
        page,
        rights,
        flush: flush != 0,
    })
}

/// The end of a space.
pub fn end_command(space: RawSpace) -> Result<Command, Status>
    ensures { result ≡ end_command space }
{
    let space = space_of(space)?;
    Ok(Command::End { space })
}
