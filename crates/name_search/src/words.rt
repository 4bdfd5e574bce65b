//! The words of a text.
ghost use Rattle.std.specs.Prelude.{◌≡◌, ◌+◌, ◌++◌, ◌∷◌, [], chars, filter, string_bytes, IfOk, OnOk};
ghost use Rattle.name_search.specs.Words as spec;

use crate::word::{Word, texts_of};
use caseless::default_case_fold_str;
use lei_values::{List, NoMemory, Text};
use std::alloc::Global;
use std::sync::ledger::Ledger;
use unicode_normalization::to_nfkc;
use worker_pool::Steps;

/// The words of a text in order, each as often as it occurs. This is one step.
pub fn folded<L: Ledger>(
    alloc: Global,
    text: &str,
    steps: &mut Steps<L>,
) -> Result<List<Text>, NoMemory>
    ensures words { IfOk result (λ found. found ≡ spec.words text.now) }
    ensures steps { steps.new ≡ steps.old + 1 }
{
    let words = words_in_step(alloc, text, steps)?;
    texts_of(alloc, words)
}

/// The same words in the form that an index keeps.
pub fn words_in_step<L: Ledger>(
    alloc: Global,
    text: &str,
    steps: &mut Steps<L>,
) -> Result<List<Word>, NoMemory>
    ensures words { IfOk result (λ found. found ≡ spec.words text.now) }
    ensures steps { steps.new ≡ steps.old + 1 }
{
    steps.add(1);
    words_of(alloc, text)
}

/// The same for a text to be searched for, which isn't counted as a step.
#[tactic(auto, unfolding(crate::specs::Words::words))]
pub fn words_of(alloc: Global, text: &str) -> Result<List<Word>, NoMemory>
    ensures { IfOk result (λ found. found ≡ spec.words text.now) }
{
    let folded = folded_text(alloc, text)?;
    let words = cut(alloc, folded.as_str())?;
    Ok(words)
}

// The text in Normalization Form KC, and then folded. A text of ASCII is in this form already, and folds to its lower
// case.
fn folded_text(alloc: Global, text: &str) -> Result<String, NoMemory>
    ensures { IfOk result (λ folded. chars (string_bytes folded) ≡ spec.folded_chars text.now) }
{
    if text.is_ascii() {
        return Ok(text.to_ascii_lowercase(alloc)?);
    }
    let composed = to_nfkc(alloc, text)?;
    let folded = default_case_fold_str(alloc, composed.as_str())?;
    Ok(folded)
}

// The words of a text that is already folded.
fn cut(alloc: Global, text: &str) -> Result<List<Word>, NoMemory>
    ensures { IfOk result (λ found. found ≡ filter spec.is_word (spec.word_pieces (chars text.now))) }
{
    let mut words = Vec::new(alloc);
    let mut word = String::with_capacity(alloc, text.len())?;
    for c in text.chars() {
        if is_separator(c) {
            put_word(alloc, &mut words, &mut word)?;
        } else {
            word.push(c)?;
        }
    }
    put_word(alloc, &mut words, &mut word)?;
    Ok(List::from(words))
}

// Appends a word if it isn't empty, and clears it.
fn put_word(alloc: Global, words: &mut Vec<Word>, word: &mut String) -> Result<(), NoMemory>
    ensures words { OnOk result
        (words.new.items ≡ words.old.items ++ filter spec.is_word (string_bytes word.old ∷ [])) }
    ensures word { OnOk result (string_bytes word.new ≡ []) }
{
    if word.is_empty() {
        return Ok(());
    }
    words.push(Word::copy_of(alloc, word.as_str())?)?;
    word.clear();
    Ok(())
}

// Whether a text is cut at this character.
fn is_separator(c: char) -> bool
    ensures { result ≡ spec.is_separator c }
{
    c.is_whitespace() || c.is_ascii() && !c.is_ascii_alphanumeric()
}
