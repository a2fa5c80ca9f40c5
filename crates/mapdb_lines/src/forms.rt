//! What the words behind the first one say, for each kind of line.

ghost use Rattle.std.specs.Prelude.{◌≡◌};
ghost use Rattle.mapdb_lines.specs.Words.{words_of, behind_words};
ghost use Rattle.mapdb_lines.specs.Grammar.{processors_at, map_at, words_map_at, unmapping_at};
ghost use Rattle.mapdb_lines.specs.Grammar.{ending_at, page_query_at, tree_query_at, sending_at};
ghost use Rattle.mapdb_lines.specs.Grammar.{delivery_at, both_at, saving_at, loading_at};
ghost use Rattle.mapdb_lines.specs.Grammar.{tabling_at, versioning_at};

use crate::fault::LineFault;
use crate::lines::Line;
use crate::spellings::{
    address, base, fpage, item, mark, mode, processor, send, space, space_number, window,
};
use crate::text::Text;
use crate::words::{
    four_words, next_word, one_word, six_words, skip_spaces, three_words, two_words,
};
use mapdb_facts::Space;
use mapdb_fpage::MapItem;

/// `processors N`.
#[tactic(auto, unfolding(crate::specs::Grammar::processors_at))]
pub(crate) fn processors_line<'a>(words: &[u8]) -> Result<Line<'a>, LineFault>
    ensures { result ≡ processors_at (words_of words.now) }
{
    let Some(count) = one_word(words) else {
        return Err(LineFault::Words);
    };
    let count = processor(count)?;
    Ok(Line::Processors(count))
}

/// `map P S SEND BASE R FPAGE`.
#[tactic(auto, unfolding(crate::specs::Grammar::map_at))]
pub(crate) fn map_line<'a>(words: &[u8]) -> Result<Line<'a>, LineFault>
    ensures { result ≡ map_at (words_of words.now) }
{
    let Some((at, sender, item, send_base, receiver, window)) = six_words(words) else {
        return Err(LineFault::Words);
    };
    let at = processor(at)?;
    let sender = space(sender)?;
    let (page, rights) = send(item)?;
    let send_base = base(send_base)?;
    let receiver = space(receiver)?;
    let window = fpage(window)?;
    let item = MapItem {
        send_base,
        page,
        rights,
    };
    Ok(Line::Map {
        at,
        sender,
        item,
        receiver,
        window,
    })
}

/// `words P S FIRST SECOND R WINDOW`.
#[tactic(auto, unfolding(crate::specs::Grammar::words_map_at))]
pub(crate) fn words_map_line<'a>(words: &[u8]) -> Result<Line<'a>, LineFault>
    ensures { result ≡ words_map_at (words_of words.now) }
{
    let Some((at, sender, first, second, receiver, taken)) = six_words(words) else {
        return Err(LineFault::Words);
    };
    let at = processor(at)?;
    let sender = space(sender)?;
    let offered = item(first, second)?;
    let receiver = space(receiver)?;
    let taken = window(taken)?;
    Ok(Line::Map {
        at,
        sender,
        item: offered,
        receiver,
        window: taken,
    })
}

/// `unmap P S SEND MODE`.
#[tactic(auto, unfolding(crate::specs::Grammar::unmapping_at))]
pub(crate) fn unmapping_line<'a>(words: &[u8]) -> Result<Line<'a>, LineFault>
    ensures { result ≡ unmapping_at (words_of words.now) }
{
    let Some((at, invoker, part, how)) = four_words(words) else {
        return Err(LineFault::Words);
    };
    let at = processor(at)?;
    let invoker = space(invoker)?;
    let (page, rights) = send(part)?;
    let flush = mode(how)?;
    Ok(Line::Unmap {
        at,
        space: invoker,
        page,
        rights,
        flush,
    })
}

/// `end P S`.
#[tactic(auto, unfolding(crate::specs::Grammar::ending_at))]
pub(crate) fn ending_line<'a>(words: &[u8]) -> Result<Line<'a>, LineFault>
    ensures { result ≡ ending_at (words_of words.now) }
{
    let Some((at, ended)) = two_words(words) else {
        return Err(LineFault::Words);
    };
    let at = processor(at)?;
    let ended = space(ended)?;
    Ok(Line::End { at, space: ended })
}

/// `P S ADDR`, the page that a query asks for.
#[tactic(auto, unfolding(crate::specs::Grammar::page_query_at))]
pub(crate) fn page_query(words: &[u8]) -> Result<(u8, Space, u64), LineFault>
    ensures { result ≡ page_query_at (words_of words.now) }
{
    let Some((at, asked, byte)) = three_words(words) else {
        return Err(LineFault::Words);
    };
    let at = processor(at)?;
    let asked = space(asked)?;
    let byte = address(byte)?;
    Ok((at, asked, byte))
}

/// `tree S ADDR`.
#[tactic(auto, unfolding(crate::specs::Grammar::tree_query_at))]
pub(crate) fn tree_query_line<'a>(words: &[u8]) -> Result<Line<'a>, LineFault>
    ensures { result ≡ tree_query_at (words_of words.now) }
{
    let Some((asked, byte)) = two_words(words) else {
        return Err(LineFault::Words);
    };
    let asked = space(asked)?;
    let byte = address(byte)?;
    Ok(Line::Tree {
        space: asked,
        address: byte,
    })
}

/// `send P I J`.
#[tactic(auto, unfolding(crate::specs::Grammar::sending_at))]
pub(crate) fn sending_line<'a>(words: &[u8]) -> Result<Line<'a>, LineFault>
    ensures { result ≡ sending_at (words_of words.now) }
{
    let Some((at, first, end)) = three_words(words) else {
        return Err(LineFault::Words);
    };
    let at = processor(at)?;
    let first = mark(first)?;
    let end = mark(end)?;
    Ok(Line::Send { at, first, end })
}

/// `deliver M P`.
#[tactic(auto, unfolding(crate::specs::Grammar::delivery_at))]
pub(crate) fn delivery_line<'a>(words: &[u8]) -> Result<Line<'a>, LineFault>
    ensures { result ≡ delivery_at (words_of words.now) }
{
    let Some((message, at)) = two_words(words) else {
        return Err(LineFault::Words);
    };
    let message = mark(message)?;
    let at = processor(at)?;
    Ok(Line::Deliver { message, at })
}

/// `P Q`, two processors.
#[tactic(auto, unfolding(crate::specs::Grammar::both_at))]
pub(crate) fn processor_pair(words: &[u8]) -> Result<(u8, u8), LineFault>
    ensures { result ≡ both_at (words_of words.now) }
{
    let Some((at, other)) = two_words(words) else {
        return Err(LineFault::Words);
    };
    let at = processor(at)?;
    let other = processor(other)?;
    Ok((at, other))
}

/// `save P`.
#[tactic(auto, unfolding(crate::specs::Grammar::saving_at))]
pub(crate) fn saving_line<'a>(words: &[u8]) -> Result<Line<'a>, LineFault>
    ensures { result ≡ saving_at (words_of words.now) }
{
    let Some(at) = one_word(words) else {
        return Err(LineFault::Words);
    };
    let at = processor(at)?;
    Ok(Line::Save(at))
}

/// `load P TEXT`, whose text is what stands behind the spaces after P.
#[tactic(auto, using(crate::proofs::Loading::words), unfolding(crate::specs::Grammar::loading_at))]
pub(crate) fn loading_line<'a>(words: &'a [u8]) -> Result<Line<'a>, LineFault>
    ensures { result ≡ loading_at (words_of words.now) (behind_words 1 words.now) }
{
    let Some((at, rest)) = next_word(words) else {
        return Err(LineFault::Words);
    };
    let text = skip_spaces(rest);
    if text.is_empty() {
        return Err(LineFault::Words);
    }
    let at = processor(at)?;
    Ok(Line::Load {
        at,
        text: Text::new(text),
    })
}

/// `table P`.
#[tactic(auto, unfolding(crate::specs::Grammar::tabling_at))]
pub(crate) fn tabling_line<'a>(words: &[u8]) -> Result<Line<'a>, LineFault>
    ensures { result ≡ tabling_at (words_of words.now) }
{
    let Some(at) = one_word(words) else {
        return Err(LineFault::Words);
    };
    let at = processor(at)?;
    Ok(Line::Table(at))
}

/// `version P NUMBER`.
#[tactic(auto, unfolding(crate::specs::Grammar::versioning_at))]
pub(crate) fn version_line<'a>(words: &[u8]) -> Result<Line<'a>, LineFault>
    ensures { result ≡ versioning_at (words_of words.now) }
{
    let Some((at, asked)) = two_words(words) else {
        return Err(LineFault::Words);
    };
    let at = processor(at)?;
    let asked = space_number(asked)?;
    Ok(Line::Version { at, number: asked })
}
