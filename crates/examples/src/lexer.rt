//! A lexer with keywords: the number of a token says which keyword its word is, or that it is none.

ghost use Rattle.std.specs.Prelude.{◌≡◌, ◌==◌, IfOk};
ghost use Rattle.string_interner.specs.Text.{Text};
ghost use Rattle.string_interner.specs.StandsFor.{StandsFor, StandInOrder, KeepsSymbols, TellsApart};
ghost use Rattle.examples.specs.Lexer.{IsKind, keywords, numbering};
ghost use Rattle.examples.specs.Tokens.{words_of};

use crate::tokens::lex;
use std::alloc::Global;
use std::marker::Model;
use string_interner::backend::{DefaultBackend, InternError};
use string_interner::dedup::{DefaultHashBuilder, TextHasher};
use string_interner::{DefaultSymbol, StringInterner, Symbol};

/// What a word is.
#[derive(Clone, Copy, PartialEq, Eq, Debug)]
pub enum Kind {
    Let,
    If,
    Else,
    /// No keyword.
    Name,
}

/// The words of sources, each stored once. The keywords are interned first and in this order, so their numbers are 0, 1
/// and 2 in each lexer, and all other words have greater ones.
#[derive(Drop)]
pub struct Lexer<H: TextHasher = DefaultHashBuilder> {
    words: StringInterner<DefaultBackend, H>,
}

/// Contracts see the words.
impl<H: TextHasher> Model for Lexer<H> {
    ghost use Rattle.std.specs.Prelude.{List};
    ghost use Rattle.string_interner.specs.Text.{Text};
    ghost use Rattle.examples.specs.Lexer.{HasKeywords};

    ghost Value = { List Text };

    ghost view = { λ lexer. lexer.words.texts };

    ghost invariant = { λ lexer. HasKeywords lexer.words.texts };
}

impl<H: TextHasher + Default + Drop> Lexer<H> {
    /// Makes a lexer that has the keywords and no other word. Fails as `get_or_intern` does.
    pub fn new(alloc: Global) -> Result<Self, InternError>
        ensures { IfOk result (λ lexer. lexer ≡ keywords) }
    {
        let mut words = StringInterner::new(alloc);
        words.get_or_intern("let")?;
        words.get_or_intern("if")?;
        words.get_or_intern("else")?;
        Ok(Lexer { words })
    }
}

impl<H: TextHasher> Lexer<H> {
    /// Returns a token for each word of a source, in order. Tokens are equal exactly if their words are, also those of
    /// different sources.
    ///
    /// Fails as `intern_all` does. Words that were there keep their tokens, on `Err` too.
    pub fn lex(&mut self, alloc: Global, source: &str) -> Result<Vec<DefaultSymbol>, InternError>
        ensures tokens { IfOk result (λ tokens. StandInOrder numbering self.new tokens.items
            (words_of source.now)) }
        ensures equal { IfOk result (λ _. TellsApart numbering (λ s t. s == t) self.new) }
        ensures keeps { KeepsSymbols numbering self.old self.new }
    {
        let tokens = lex(alloc, &mut self.words, source)?;
        // For the proof: states that symbols are equal exactly if their texts are.
        let _ = self.words.len();
        Ok(tokens)
    }

    /// Returns what the word of a token is, by the token's number alone.
    pub fn kind_of(&self, token: DefaultSymbol) -> Kind
        ensures { (word : Text) → StandsFor numbering self.now token word → IsKind word result }
    {
        // For the proof: states that symbols are equal exactly if their texts are.
        let _ = self.words.len();
        match token.to_usize() {
            0 => Kind::Let,
            1 => Kind::If,
            2 => Kind::Else,
            _ => Kind::Name,
        }
    }
}
