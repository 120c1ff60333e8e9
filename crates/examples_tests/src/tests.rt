use examples::blocks::Blocks;
use examples::lexer::{Kind, Lexer};
use examples::lines::{
    collect, encode, intern_and_compare, intern_fast, intern_seeded, keep_the_first, nested_scopes,
    to_json_and_back,
};
use examples::same_text::same_text;
use examples::tokens::{is_keyword, lex};
use std::alloc::Global;
use std::test::Fail;
use string_interner::backend::{
    Backend, BucketBackend, BufferBackend, InternError, Store, StringBackend,
};
use string_interner::dedup::{SeededHasher, SeededState, TextHasher};
use string_interner::symbol::Symbol;
use string_interner::{DefaultStringInterner, StringInterner};

/// Passes a test whose calls were not refused, and answered as they should.
fn check_answer(answered: Result<bool, InternError>) -> Result<(), Fail> {
    match answered {
        Ok(true) => Ok(()),
        Ok(false) => Err("it answered otherwise".into()),
        Err(_) => Err("it was refused".into()),
    }
}

fn compares(alloc: Global) -> Result<bool, InternError> {
    let mut interner = <DefaultStringInterner>::new(alloc);
    let same = same_text(&mut interner, "Tiger", "Tiger")?;
    let other = same_text(&mut interner, "Tiger", "Horse")?;
    Ok(same & !other)
}

#[test]
fn equal_texts_have_one_symbol(rt: HostRuntime) -> Result<(), Fail> {
    check_answer(compares(rt.alloc()))
}

fn lexes(alloc: Global) -> Result<bool, InternError> {
    let mut lexer = <Lexer>::new(alloc)?;
    let tokens = lexer.lex(alloc, "let x if else x lets")?;
    match tokens.as_slice() {
        [first, x, third, fourth, again, last] => {
            let are_keywords = (
                lexer.kind_of(*first),
                lexer.kind_of(*third),
                lexer.kind_of(*fourth),
            ) == (Kind::Let, Kind::If, Kind::Else);
            let are_names = (lexer.kind_of(*x), lexer.kind_of(*last)) == (Kind::Name, Kind::Name);
            Ok(are_keywords & are_names & (*again == *x) & (*last != *first))
        }
        _ => Ok(false),
    }
}

fn lexes_over<B: Backend + Drop>(alloc: Global) -> Result<bool, InternError> {
    let mut words = StringInterner::<B>::new(alloc);
    words.get_or_intern("let")?;
    let last = words.get_or_intern("in")?;
    let tokens = lex(alloc, &mut words, "let x = y in x")?;
    match tokens.as_slice() {
        [first, x, _, _, fifth, again] => Ok(
            (*fifth == last)
                & (*again == *x)
                & is_keyword(&words, last, *first)
                & is_keyword(&words, last, *fifth)
                & !is_keyword(&words, last, *again),
        ),
        _ => Ok(false),
    }
}

#[test]
fn keywords_have_the_least_numbers(rt: HostRuntime) -> Result<(), Fail> {
    check_answer(lexes_over::<StringBackend>(rt.alloc()))?;
    check_answer(lexes_over::<BufferBackend>(rt.alloc()))
}

#[test]
fn keywords_are_told_by_their_numbers(rt: HostRuntime) -> Result<(), Fail> {
    check_answer(lexes(rt.alloc()))
}

/// `let x; { let y; let x; x } x y`
fn hides(alloc: Global) -> Result<bool, InternError> {
    let mut blocks = <Blocks>::new(alloc);
    let outer = blocks.declare("x")?;
    blocks.enter(alloc)?;
    blocks.declare("y")?;
    let inner = blocks.declare("x")?;
    let is_hidden = blocks.resolve("x") == Some((1, inner));
    let has_left = blocks.leave();
    let is_seen = blocks.resolve("x") == Some((0, outer));
    Ok(is_hidden & has_left & is_seen & blocks.resolve("y").is_none() & !blocks.leave())
}

#[test]
fn an_inner_name_hides_an_outer_one(rt: HostRuntime) -> Result<(), Fail> {
    check_answer(hides(rt.alloc()))
}

fn reads_back(alloc: Global) -> Result<bool, InternError> {
    let mut names = collect(alloc)?;
    let Ok(again) = to_json_and_back(alloc, &names) else {
        return Ok(false);
    };
    let is_whole = (names.len() == 4) & (again == names);
    Ok(is_whole & !keep_the_first(&mut names) & (names.len() == 1))
}

fn lines_answer(alloc: Global) -> Result<bool, InternError> {
    let are_equal = intern_and_compare(alloc)? & intern_fast(alloc)? & intern_seeded(alloc, 1, 2)?;
    let codes = encode(alloc)?;
    Ok(are_equal & (codes == 3) & (nested_scopes(alloc)? == (true, true)))
}

#[test]
fn lines_answer_as_they_say(rt: HostRuntime) -> Result<(), Fail> {
    check_answer(lines_answer(rt.alloc()))?;
    check_answer(reads_back(rt.alloc()))
}

fn shows_no_key(alloc: Global) -> Result<bool, InternError> {
    let seeded = format!(in alloc; "{:?}", SeededState::new(77_777, 88_888))?;
    Ok(seeded.as_str() == "SeededState { .. }")
}

#[test]
fn a_builder_shows_no_key(rt: HostRuntime) -> Result<(), Fail> {
    check_answer(shows_no_key(rt.alloc()))
}

/// The codes are those of another program, under the same keys.
fn interns_seeded(alloc: Global) -> Result<bool, InternError> {
    let keys = SeededState::new(0xAED6_6CE1_84BE_2329, 0xEBE9_BBF1_F149_9052);
    let hasher = SeededHasher::new(keys);
    let has_codes = (hasher.hash_text("") == 0x2DCA_98ED_8279_6A8C)
        & (hasher.hash_text("foo") == 0x4EF3_7E5B_EC45_5730)
        & (hasher.hash_text("Tiger") == 0x28DD_40AB_1948_C05D)
        & (hasher.hash_text("fifteen bytes !") == 0x8CD7_D790_E7C9_1118)
        & (hasher.hash_text("seventeen bytes !") == 0x4D07_AD8D_7DFC_0B17);
    let mut names = StringInterner::<StringBackend, SeededHasher>::with_hasher(alloc, hasher);
    let tiger = names.get_or_intern("Tiger")?;
    let horse = names.get_or_intern("Horse")?;
    let is_known = names.get_or_intern("Tiger")? == tiger;
    let is_found = (names.get("Horse") == Some(horse)) & names.get("Zebra").is_none();
    Ok(has_codes & is_known & is_found & (names.resolve(tiger) == Some("Tiger")))
}

#[test]
fn a_seeded_hasher_has_its_codes(rt: HostRuntime) -> Result<(), Fail> {
    check_answer(interns_seeded(rt.alloc()))
}

fn iterates_backends(alloc: Global) -> Result<bool, InternError> {
    let mut strings = <StringBackend>::new(alloc);
    let mut buckets = <BucketBackend>::new(alloc);
    let mut buffer = <BufferBackend>::new(alloc);
    for text in ["red", "green"] {
        strings.intern(text)?;
        buckets.intern(text)?;
        buffer.intern(text)?;
    }
    // Whether the entry that came last is that of the second text.
    let (mut strings_end, mut buckets_end, mut buffer_ends) = (false, false, false);
    for (symbol, text) in &strings {
        strings_end = symbol.to_usize() == 1 && text == "green";
    }
    for (symbol, text) in &buckets {
        buckets_end = symbol.to_usize() == 1 && text == "green";
    }
    for (symbol, text) in &buffer {
        buffer_ends = symbol.to_usize() == 4 && text == "green";
    }
    Ok(strings_end & buckets_end & buffer_ends)
}

#[test]
fn backends_are_iterated_by_reference(rt: HostRuntime) -> Result<(), Fail> {
    check_answer(iterates_backends(rt.alloc()))
}
