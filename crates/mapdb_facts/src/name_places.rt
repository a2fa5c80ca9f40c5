//! Where names of records stand in a list of them: near ones by their number, far ones in a map.
//! Both are met in the order of names.

ghost use Rattle.std.specs.Prelude.{◌≡◌, ◌==◌, ◌+◌, ◌*◌, ◌<◌, ◌≤◌, ◌^◌, ℕ, None, Some, IfSome, max};
ghost use Rattle.std.specs.Prelude.{OnErr, OnOk, if◌then◌else◌, slice_index, vec_len};
ghost use Rattle.mapdb_facts.specs.Names.{number_limit, processor_limit, same_id};
ghost use Rattle.mapdb_facts.specs.declared.names.RecordId.{RecordId};
ghost use Rattle.mapdb_facts.specs.NamePlaces.{HaveFewLists, near_word, place_in};

use crate::limits::{NEAR_NUMBERS, NUMBER_LIMIT, PROCESSOR_LIMIT};
use crate::names::RecordId;
use std::alloc::{AllocError, Global};
use std::collections::BTreeMap;

/// The places of names in a list that they belong to. Which names are near is a matter of speed
/// alone.
#[derive(Drop)]
pub struct NamePlaces {
    pub(crate) near: Vec<Vec<u32>>,
    pub(crate) far: BTreeMap<RecordId, usize>,
    /// How many names are known to come here, or to be elsewhere.
    expected: usize,
    alloc: Global,
}

/// The word of a name among near ones: its place and one, or 0.
pub(crate) fn near_word(near: &[Vec<u32>], id: RecordId) -> u32
    ensures { result ≡ near_word near.now id }
{
    match near.get(id.processor() as usize) {
        Some(words) => match words.get(id.number() as usize) {
            Some(word) => *word,
            None => 0,
        },
        None => 0,
    }
}

/// The word for a name at a place, where the name is near: its number lies not far beyond twice the
/// names that came before it, or that are expected. So the list of each processor has at most
/// [`NEAR_NUMBERS`] words more than twice these names.
#[inline(always)]
fn word_for(id: RecordId, at: usize, expected: usize) -> Option<u32>
    ensures word { IfSome result (λ word. word ≡ at + 1) }
    ensures number { IfSome result (λ _. id.number < number_limit) }
    ensures processor { IfSome result (λ _. id.processor < processor_limit) }
    ensures near { IfSome result (λ _. id.number < 2 * (max at expected) + NEAR_NUMBERS) }
{
    let names = at.max(expected) as u64;
    let limit = names.saturating_mul(2).saturating_add(NEAR_NUMBERS);
    let limit = limit.min(NUMBER_LIMIT);
    if id.processor() < PROCESSOR_LIMIT && id.number() < limit && at < u32::MAX as usize {
        return Some(at as u32 + 1);
    }
    None
}

/// Has lists up to that of a processor. An error where memory ran out.
#[inline(always)]
fn reach(near: &mut Vec<Vec<u32>>, alloc: Global, processor: u8) -> Result<(), AllocError>
    requires { processor < processor_limit }
    ensures reached { OnOk result (processor < vec_len near.new) }
    ensures few { HaveFewLists near.old.items → HaveFewLists near.new.items }
    ensures same { (q : RecordId) → near_word near.new.items q ≡ near_word near.old.items q }
{
    while near.len() <= processor as usize {
        near.push(Vec::new(alloc))?;
    }
    Ok(())
}

/// Makes the list of a processor reach up to a number, with no place in what is new. An error where
/// memory ran out.
#[inline(always)]
fn lengthen(words: &mut Vec<u32>, number: usize) -> Result<(), AllocError>
    requires { number < number_limit }
    ensures reached { OnOk result (number < vec_len words.new) }
    ensures short { vec_len words.old ≤ number_limit → vec_len words.new ≤ number_limit }
    ensures same { (n : ℕ) → slice_index words.new.items n ≡ slice_index words.old.items n }
{
    if number < words.len() {
        return Ok(());
    }
    words.resize(number + 1, 0)
}

/// Writes a word of the list of a processor. An error where memory ran out.
#[inline(always)]
fn put_word(words: &mut Vec<u32>, number: usize, word: u32) -> Result<(), AllocError>
    requires { number < number_limit }
    ensures short { vec_len words.old ≤ number_limit → vec_len words.new ≤ number_limit }
    ensures ok { OnOk result ((n : ℕ) → slice_index words.new.items n
        ≡ (if number == n then word else slice_index words.old.items n)) }
    ensures err { OnErr result ((n : ℕ) → slice_index words.new.items n
        ≡ slice_index words.old.items n) }
{
    if number == words.len() {
        // It mostly comes next to the last one of its processor.
        words.push(word)?;
        return Ok(());
    }
    lengthen(words, number)?;
    words[number] = word;
    Ok(())
}

/// Writes the word of a near name. An error where memory ran out.
#[inline(always)]
fn put_near(
    near: &mut Vec<Vec<u32>>,
    alloc: Global,
    id: RecordId,
    word: u32,
) -> Result<(), AllocError>
    requires number { id.number < number_limit }
    requires processor { id.processor < processor_limit }
    ensures few { HaveFewLists near.old.items → HaveFewLists near.new.items }
    ensures ok { OnOk result ((q : RecordId) → near_word near.new.items q
        ≡ (if same_id id q then word else near_word near.old.items q)) }
    ensures err { OnErr result ((q : RecordId) → near_word near.new.items q
        ≡ near_word near.old.items q) }
{
    reach(near, alloc, id.processor())?;
    put_word(
        &mut near[id.processor() as usize],
        id.number() as usize,
        word,
    )
}

impl NamePlaces {
    /// No places. It takes no memory.
    pub(crate) fn new(alloc: Global) -> NamePlaces
        ensures none { (id : RecordId) → place_in result id ≡ None }
        ensures few { HaveFewLists result.near.items }
    {
        NamePlaces {
            near: Vec::new(alloc),
            far: BTreeMap::new(alloc),
            expected: 0,
            alloc,
        }
    }

    /// The place of a name, where it has one.
    #[inline(always)]
    pub fn get(&self, id: RecordId) -> Option<usize>
        ensures { result ≡ place_in self.now id }
    {
        let word = near_word(self.near.as_slice(), id);
        if word != 0 {
            return Some(word as usize - 1);
        }
        if self.far.is_empty() {
            return None;
        }
        self.far.get(&id).copied()
    }

    /// Expects so many names, or as many as it did: names that come from now on are near where they
    /// would be behind so many.
    pub(crate) fn expect(&mut self, names: usize)
        ensures { self.new ≡ record self.old { expected = max self.old.expected names } }
    {
        self.expected = self.expected.max(names);
    }

    /// Gives a place to a name that has none. An error where memory ran out.
    #[inline(always)]
    pub(crate) fn put(&mut self, id: RecordId, at: usize) -> Result<(), AllocError>
        requires { place_in self.old id ≡ None }
        ensures few { HaveFewLists self.old.near.items → HaveFewLists self.new.near.items }
        ensures ok { OnOk result ((q : RecordId) → place_in self.new q
            ≡ (if same_id id q then Some at else place_in self.old q)) }
        ensures err { OnErr result ((q : RecordId) → place_in self.new q ≡ place_in self.old q) }
    {
        if let Some(word) = word_for(id, at, self.expected) {
            return put_near(&mut self.near, self.alloc, id, word);
        }
        self.far.insert(id, at)?;
        Ok(())
    }
}
