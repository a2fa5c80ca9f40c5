//! Where spaces stand among those that came.

ghost use Rattle.std.specs.Prelude.{◌≡◌, ◌==◌, ◌+◌, ◌^◌, ◌<◌, ◌++◌, ◌∷◌, [], ℕ, None, Some, IfSome};
ghost use Rattle.std.specs.Prelude.{OnErr, OnOk, if◌then◌else◌, length, slice_index, vec_len};
ghost use Rattle.std.specs.Map.{lookup};
ghost use Rattle.mapdb_facts.specs.Names.{same_space};
ghost use Rattle.mapdb_facts.specs.declared.names.Space.{Space};
ghost use Rattle.mapdb_lists.specs.BySpace.{AreWordsOf, near_place, or_place, space_place};
ghost use Rattle.mapdb_lists.specs.BySpace.{found_place, told_place};

use mapdb_facts::Space;
use std::alloc::{AllocError, Global};
use std::collections::HashMap;

/// The places of spaces. The last one that came with a number is near: it is found by that number.
/// Those that came with it before have mostly ended, and are far.
#[derive(Drop)]
pub struct SpacePlaces {
    /// For each number, the place of the last space with it, and one; 0 where there is none.
    pub(crate) near: Vec<u32>,
    /// The spaces, in the order in which they came.
    pub(crate) spaces: Vec<Space>,
    /// The places of spaces that are not near.
    pub(crate) far: HashMap<Space, usize>,
}

/// The word of a number: 0 where there is none.
#[inline(always)]
fn word_of(near: &[u32], number: usize) -> u32
    ensures { result ≡ slice_index near.now number }
{
    match near.get(number) {
        Some(word) => *word,
        None => 0,
    }
}

/// The place of a space, where the word of its number tells it.
#[inline(always)]
fn near_place(near: &[u32], spaces: &[Space], space: Space) -> Option<usize>
    ensures { result ≡ near_place near.now spaces.now space }
{
    let word = word_of(near, space.number as usize);
    if word == 0 {
        return None;
    }
    let at = word as usize - 1;
    match spaces.get(at) {
        Some(other) if other.is(space) => Some(at),
        _ => None,
    }
}

/// Has a word for a number, where it has none yet one that tells of no space. An error where memory
/// ran out.
fn reach(near: &mut Vec<u32>, number: usize) -> Result<(), AllocError>
    requires { number + 1 < 2 ^ 64 }
    ensures reached { OnOk result (number < vec_len near.new) }
    ensures same { (n : ℕ) → slice_index near.new.items n ≡ slice_index near.old.items n }
{
    if number < near.len() {
        return Ok(());
    }
    near.resize(number + 1, 0)
}

/// The word for a place, where there is one.
fn word_for(at: usize) -> Option<u32>
    ensures { IfSome result (λ word. word ≡ at + 1) }
{
    if at < u32::MAX as usize {
        return Some(at as u32 + 1);
    }
    None
}

/// The space that a word tells of becomes far. An error where memory ran out, and then each space
/// is found as before.
fn move_far(far: &mut HashMap<Space, usize>, spaces: &[Space], word: u32) -> Result<(), AllocError>
    ensures ok { OnOk result ((q : Space) → lookup (same_space q) far.new.entries
        ≡ or_place (told_place spaces.now word q) (lookup (same_space q) far.old.entries)) }
    ensures err { OnErr result ((q : Space) → lookup (same_space q) far.new.entries
        ≡ lookup (same_space q) far.old.entries) }
{
    if word == 0 {
        return Ok(());
    }
    let at = word as usize - 1;
    if let Some(other) = spaces.get(at) {
        far.insert(*other, at)?;
    }
    Ok(())
}

/// Writes a word.
fn set_word(near: &mut Vec<u32>, number: usize, word: u32)
    requires { number < vec_len near.old }
    ensures { (n : ℕ) → slice_index near.new.items n
        ≡ (if number == n then word else slice_index near.old.items n) }
{
    near[number] = word;
}

/// Tells that a space stands behind the others: it is near, and the one that was near with its
/// number is far. An error where memory ran out, and then each space is found as before.
fn tell(
    near: &mut Vec<u32>,
    far: &mut HashMap<Space, usize>,
    spaces: &[Space],
    space: Space,
) -> Result<(), AllocError>
    requires words { AreWordsOf near.old.items spaces.now }
    requires reached { space.number < vec_len near.old }
    requires none { found_place near.old.items spaces.now far.old.entries space ≡ None }
    ensures words { OnOk result (AreWordsOf near.new.items (spaces.now ++ space ∷ [])) }
    ensures ok { OnOk result ((q : Space)
        → found_place near.new.items (spaces.now ++ space ∷ []) far.new.entries q
        ≡ (if same_space space q then Some (length spaces.now)
        else found_place near.old.items spaces.now far.old.entries q)) }
    ensures err { OnErr result ((q : Space)
        → found_place near.new.items spaces.now far.new.entries q
        ≡ found_place near.old.items spaces.now far.old.entries q) }
    ensures kept { OnErr result (near.new.items ≡ near.old.items) }
{
    let number = space.number as usize;
    let Some(word) = word_for(spaces.len()) else {
        far.insert(space, spaces.len())?;
        return Ok(());
    };
    move_far(far, spaces, word_of(near.as_slice(), number))?;
    set_word(near, number, word);
    Ok(())
}

impl SpacePlaces {
    /// No places. It takes no memory.
    pub(crate) fn new(alloc: Global) -> SpacePlaces
        ensures none { (space : Space) → space_place result space ≡ None }
        ensures words { AreWordsOf result.near.items result.spaces.items }
        ensures all { result.spaces.items ≡ [] }
    {
        SpacePlaces {
            near: Vec::new(alloc),
            spaces: Vec::new(alloc),
            far: HashMap::new(alloc),
        }
    }

    /// The place of a space, where it has one.
    #[inline(always)]
    pub(crate) fn get(&self, space: Space) -> Option<usize>
        ensures { result ≡ space_place self.now space }
    {
        let near = near_place(self.near.as_slice(), self.spaces.as_slice(), space);
        if near.is_some() || self.far.is_empty() {
            return near;
        }
        self.far.get(&space).copied()
    }

    /// Gives the next place to a space that has none. An error where memory ran out, and then each
    /// space has the place that it had.
    pub(crate) fn put(&mut self, space: Space) -> Result<(), AllocError>
        requires words { AreWordsOf self.old.near.items self.old.spaces.items }
        requires none { space_place self.old space ≡ None }
        ensures words { AreWordsOf self.new.near.items self.new.spaces.items }
        ensures ok { OnOk result ((q : Space) → space_place self.new q
            ≡ (if same_space space q then Some (length self.old.spaces.items)
            else space_place self.old q)) }
        ensures more { OnOk result (self.new.spaces.items ≡ self.old.spaces.items ++ space ∷ []) }
        ensures err { OnErr result ((q : Space) → space_place self.new q
            ≡ space_place self.old q) }
        ensures kept { OnErr result (self.new.spaces.items ≡ self.old.spaces.items) }
    {
        self.spaces.reserve(1)?;
        reach(&mut self.near, space.number as usize)?;
        tell(&mut self.near, &mut self.far, self.spaces.as_slice(), space)?;
        self.spaces.push_reserved(space);
        Ok(())
    }
}
