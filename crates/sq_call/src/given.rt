//! Words that are handed in.
ghost use Rattle.std.specs.Prelude.{◌≡◌, ◌∷◌, ◌++◌, [], true, false, IfOk, MatchOption, OnOk, IsErrOf};
ghost use Rattle.std.specs.Str.{is_utf8};
ghost use Rattle.sq_words.specs.Words.{texts};
ghost use Rattle.sq_call.specs.Given.{bytes_of, are_texts};

use std::alloc::{AllocError, Global};

/// Why there are no words.
#[derive(Clone, Copy, PartialEq, Eq)]
pub(crate) enum NoWords {
    /// One of them is no UTF-8.
    NotText,
    NoMemory,
}

/// The words as texts.
pub(crate) fn words_of(alloc: Global, given: &[&[u8]]) -> Result<Vec<String>, NoWords>
    ensures ok { IfOk result (λ words. texts words.items ≡ bytes_of given.now) }
    ensures texts { OnOk result (are_texts (bytes_of given.now) ≡ true) }
    ensures not_text { IsErrOf result NoWords.NotText → are_texts (bytes_of given.now) ≡ false }
{
    let mut words = Vec::new(alloc);
    for word in given {
        match add_word(alloc, &mut words, word) {
            Ok(()) => {}
            Err(why) => return Err(why),
        }
    }
    Ok(words)
}

// One word more.
fn add_word(alloc: Global, words: &mut Vec<String>, word: &[u8]) -> Result<(), NoWords>
    ensures ok { OnOk result (texts words.new.items ≡ texts words.old.items ++ word.now ∷ []) }
    ensures text { OnOk result (is_utf8 word.now ≡ true) }
    ensures not_text { IsErrOf result NoWords.NotText → is_utf8 word.now ≡ false }
{
    let text = match text_of(word) {
        Some(text) => text,
        None => return Err(NoWords::NotText),
    };
    match push_text(alloc, words, text) {
        Ok(()) => Ok(()),
        Err(_) => Err(NoWords::NoMemory),
    }
}

fn push_text(alloc: Global, words: &mut Vec<String>, text: &str) -> Result<(), AllocError>
    ensures { OnOk result (texts words.new.items ≡ texts words.old.items ++ text.now ∷ []) }
{
    words.push(String::from_str(alloc, text)?)?;
    Ok(())
}

// The bytes as a text, where they are one.
#[tactic(auto, using(crate::proofs::Texts::utf8_true, crate::proofs::Texts::utf8_false))]
fn text_of(bytes: &[u8]) -> Option<&str>
    ensures { MatchOption result (is_utf8 bytes.now ≡ false)
        (λ text. (text.now ≡ bytes.now) × (is_utf8 bytes.now ≡ true)) }
{
    match str::from_utf8(bytes) {
        Ok(text) => Some(text),
        Err(_) => None,
    }
}
