//! The words of a source as tokens, which are symbols, over any backend.

ghost use Rattle.std.specs.Prelude.{◌≤◌, ◌↔◌, IsTrue, IfOk};
ghost use Rattle.string_interner.specs.Text.{Text};
ghost use Rattle.string_interner.specs.StandsFor.{StandsFor, StandInOrder, KeepsSymbols};
ghost use Rattle.examples.specs.Tokens.{words_of};

use std::alloc::Global;
use string_interner::backend::{Backend, InternError};
use string_interner::dedup::TextHasher;
use string_interner::{StringInterner, Symbol};

/// Returns a token for each word of a source, in order: the word's symbol. A single blank separates words, so between two
/// blanks there is an empty word.
///
/// Fails as `intern_all` does. Words that were there keep their symbols, on `Err` too.
pub fn lex<B: Backend, H: TextHasher>(
    alloc: Global,
    words: &mut StringInterner<B, H>,
    source: &str,
) -> Result<Vec<B::Symbol>, InternError>
    ensures tokens { IfOk result (λ tokens. StandInOrder B.numbering words.new.texts tokens.items
        (words_of source.now)) }
    ensures keeps { KeepsSymbols B.numbering words.old.texts words.new.texts }
{
    let mut tokens = Vec::new(alloc);
    words.intern_all(source.split(' '), &mut tokens)?;
    Ok(tokens)
}

/// Reports whether a token is a keyword, by its number alone. The caller interns the keywords before all other words, and
/// `last` is the symbol of the last of them: the keywords are the words up to that one.
pub fn is_keyword<B: Backend, H: TextHasher>(
    words: &StringInterner<B, H>,
    last: B::Symbol,
    token: B::Symbol,
) -> bool
    ensures { (keyword word : Text) (end : StandsFor B.numbering words.now.texts last keyword)
        (at : StandsFor B.numbering words.now.texts token word)
        → IsTrue result ↔ (at.index ≤ end.index) }
{
    // For the proof: states that of two texts the later has the greater number.
    let _ = words.len();
    token.to_usize() <= last.to_usize()
}
