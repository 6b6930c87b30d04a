// Which refusals are of what this reader leaves out, and not of a fault in the module. specs/Outside.antt has the words.
#![tactic(auto)]

ghost use Rattle.std.specs.Prelude.{◌≡◌, ◌≤◌, length};
ghost use Rattle.lexicon.specs.Word.{same};
ghost use Rattle.outside.specs.Outside.{among, conformance_words, first_words, kind_of, behind, left_out, is_outside};

use piece::{Found, piece_at};

// What of SMI is left out.
#[derive(Clone, Copy)]
pub enum Left {
    // The macros of RFC 2580.
    Conformance,
    // Definitions of macros.
    Macros,
    // What SMIv1 alone has.
    FirstVersion,
    // What a module exports.
    Exports,
    // Types that are one of several.
    Choices,
}

// Whether a word is spelled so.
#[tactic(auto, using(crate::proofs::Ends::same_is))]
fn is_word(word: &[u8], spelling: &[u8]) -> bool
    ensures { result ≡ same word.now spelling.now }
{
    word == spelling
}

#[tactic(auto, unfolding(crate::specs::Outside::among, crate::specs::Outside::conformance_words, lexicon::specs::Word::bytes))]
fn is_conformance(word: &[u8]) -> bool
    ensures { result ≡ among word.now conformance_words }
{
    is_word(word, b"OBJECT-GROUP")
        || is_word(word, b"NOTIFICATION-GROUP")
        || is_word(word, b"MODULE-COMPLIANCE")
        || is_word(word, b"AGENT-CAPABILITIES")
}

#[tactic(auto, unfolding(crate::specs::Outside::among, crate::specs::Outside::first_words, lexicon::specs::Word::bytes))]
fn is_of_first_version(word: &[u8]) -> bool
    ensures { result ≡ among word.now first_words }
{
    is_word(word, b"ACCESS") || is_word(word, b"TRAP-TYPE")
}

// What a word is of.
#[tactic(auto, unfolding(crate::specs::Outside::kind_of, crate::specs::Outside::macro_word, crate::specs::Outside::exports_word, crate::specs::Outside::choice_word, lexicon::specs::Word::bytes))]
fn kind_of(word: &[u8]) -> Option<Left>
    ensures { result ≡ kind_of word.now }
{
    if is_conformance(word) {
        Some(Left::Conformance)
    } else if is_word(word, b"MACRO") {
        Some(Left::Macros)
    } else if is_of_first_version(word) {
        Some(Left::FirstVersion)
    } else if is_word(word, b"EXPORTS") {
        Some(Left::Exports)
    } else if is_word(word, b"CHOICE") {
        Some(Left::Choices)
    } else {
        None
    }
}

// Where the token or gap that stands at a place ends.
fn piece_end(text: &[u8], at: usize) -> usize
    requires { at ≤ length text.now }
    ensures is { result ≡ behind text.now at }
    ensures low { at ≤ result }
    ensures high { result ≤ length text.now }
{
    if text.len() <= at {
        return at;
    }
    match piece_at(text, at) {
        Ok(Found::Gap(end)) => end,
        Ok(Found::Token(_, end)) => end,
        Err(_) => at,
    }
}

// What a text has at a place that is left out; nothing, where the module is at fault.
#[tactic(auto, unfolding(crate::specs::Outside::left_out, crate::specs::Outside::standing, crate::specs::Outside::macro_word, lexicon::specs::Word::bytes))]
pub fn left_out(text: &[u8], place: usize) -> Option<Left>
    ensures { result ≡ left_out text.now place }
{
    if text.len() <= place {
        return None;
    }
    let end = piece_end(text, place);
    let next = piece_end(text, end);
    let last = piece_end(text, next);
    if is_word(&text[next..last], b"MACRO") {
        return Some(Left::Macros);
    }
    kind_of(&text[place..end])
}

// Whether the refusal of this number and clause, at this place of the text, is of what is left out.
#[tactic(auto, unfolding(crate::specs::Outside::is_outside))]
pub fn is_outside(number: u8, clause: u8, text: &[u8], place: usize) -> bool
    ensures { result ≡ is_outside number clause text.now place }
{
    match number {
        2 => true,
        7 => left_out(text, place).is_some(),
        10 => clause == 2,
        _ => false,
    }
}
