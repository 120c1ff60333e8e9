//! The examples that docs/use/rattle.md and the front page of `string_interner` show.

ghost use Rattle.std.specs.Prelude.{◌≡◌, [], take, true, IfOk};

use std::alloc::Global;
use string_interner::backend::{BufferBackend, DefaultBackend, InternError};
use string_interner::dedup::{SeededHasher, SeededState};
use string_interner::json::JsonError;
use string_interner::scope::Scopes;
use string_interner::{DefaultStringInterner, FastStringInterner, StringInterner};

/// Interns texts, and compares them by symbol.
pub fn intern_and_compare(alloc: Global) -> Result<bool, InternError>
    ensures { IfOk result (λ same. same ≡ true) }
{
    let mut interner = <DefaultStringInterner>::new(alloc);
    let tiger = interner.get_or_intern("Tiger")?;
    let _ = interner.get_or_intern("Horse")?;
    let again = interner.get_or_intern("Tiger")?;
    // For the proof: states that symbols are equal exactly if their texts are.
    let _ = interner.len();
    Ok(again == tiger)
}

/// Finds the symbol of a text, and the text of a symbol.
pub fn find_and_resolve(interner: &mut DefaultStringInterner) -> Result<bool, InternError>
    ensures { IfOk result (λ found. found ≡ true) }
{
    let horse = interner.get_or_intern("Horse")?;
    // For the proof: states that symbols are equal exactly if their texts are.
    let _ = interner.len();
    Ok(interner.get("Horse") == Some(horse) && interner.resolve(horse) == Some("Horse"))
}

/// Iterates over all texts in insertion order, and counts their bytes.
pub fn count_bytes(interner: &DefaultStringInterner) -> usize {
    let mut bytes = 0_usize;
    for (_, text) in interner {
        bytes = bytes.saturating_add(text.len());
    }
    bytes
}

/// The same calls on an interner that is made for speed.
pub fn intern_fast(alloc: Global) -> Result<bool, InternError>
    ensures { IfOk result (λ same. same ≡ true) }
{
    let mut interner = <FastStringInterner>::new(alloc);
    let width = interner.get_or_intern("width")?;
    let again = interner.get_or_intern("width")?;
    // For the proof: states that symbols are equal exactly if their texts are.
    let _ = interner.len();
    Ok(again == width)
}

/// The same calls under keys. If these are random and secret, no way is known to choose texts that make it slow.
pub fn intern_seeded(alloc: Global, key0: u64, key1: u64) -> Result<bool, InternError>
    ensures { IfOk result (λ same. same ≡ true) }
{
    let hasher = SeededHasher::new(SeededState::new(key0, key1));
    let mut interner = StringInterner::<DefaultBackend, SeededHasher>::with_hasher(alloc, hasher);
    let tiger = interner.get_or_intern("Tiger")?;
    let again = interner.get_or_intern("Tiger")?;
    // For the proof: states that symbols are equal exactly if their texts are.
    let _ = interner.len();
    Ok(tiger == again)
}

/// Collects over another backend. Stops at the first text that fails; those before it stay.
pub fn collect(alloc: Global) -> Result<StringInterner<BufferBackend>, InternError> {
    let elements = ["Earth", "Water"];
    let mut names = StringInterner::<BufferBackend>::from_iter(alloc, elements.iter().copied())?;
    names.extend(["Fire", "Water", "Air"].iter().copied())?;
    Ok(names)
}

/// Encodes a column: each text is stored once, and the list gets a symbol for each row.
pub fn encode(alloc: Global) -> Result<usize, InternError> {
    let mut colors = <DefaultStringInterner>::new(alloc);
    let mut codes = Vec::new(alloc);
    colors.intern_all(["red", "green", "red"].iter().copied(), &mut codes)?;
    Ok(codes.len())
}

/// Reserves once: within this capacity no text fails for memory.
pub fn reserve(alloc: Global) -> Result<StringInterner<BufferBackend>, InternError>
    ensures { IfOk result (λ names. names.texts ≡ []) }
{
    let names = StringInterner::<BufferBackend>::with_capacity(alloc, 1000)?;
    Ok(names)
}

/// Keeps only the first text; the others are new again.
pub fn keep_the_first(names: &mut StringInterner<BufferBackend>) -> bool
    ensures { names.new.texts ≡ take 1 names.old.texts }
{
    names.truncate(1);
    names.contains("Water")
}

/// All texts are in: keeps them with their symbols, and drops the index.
pub fn finish(names: StringInterner<BufferBackend>) -> BufferBackend
    ensures { result.texts ≡ names.texts }
{
    names.into_backend()
}

/// Writes the texts to JSON, and reads them back with the same symbols.
pub fn to_json_and_back(
    alloc: Global,
    names: &StringInterner<BufferBackend>,
) -> Result<StringInterner<BufferBackend>, JsonError>
    ensures { IfOk result (λ again. again.texts ≡ names.now.texts) }
{
    // For the proof: states what holds of every interner.
    let _ = names.len();
    match names.to_json(alloc) {
        Ok(value) => StringInterner::from_json(alloc, &value),
        Err(error) => Err(JsonError::Memory(error)),
    }
}

/// Names in nested scopes, as a small language has them: `let width; { let height; { width; } } height;`.
pub fn nested_scopes(alloc: Global) -> Result<(bool, bool), InternError>
    ensures { IfOk result (λ told. told.0 ≡ true) }
{
    let mut names = Scopes::new(alloc, <DefaultStringInterner>::new(alloc));
    let width = names.declare("width")?;
    names.enter()?;
    names.declare("height")?;
    // For the proof: states that symbols are equal exactly if their texts are.
    let _ = names.interner().len();
    let seen = names.find("width") == Some(width); // An inner block sees the names of the outer ones.
    let _ = names.leave();
    let gone = names.find("height").is_none(); // At the end of a block its names are forgotten.
    Ok((seen, gone))
}
