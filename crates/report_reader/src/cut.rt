//! Bytes cut at a separator.

ghost use Rattle.std.specs.Prelude.{◌≡◌, MatchOption};
ghost use Rattle.fam_script.specs.Reading.{parts, one_of, two_of, three_of};

pub use fam_script::cut::{cut, five_words, four_words, seven_words, six_words};

/// A word.
pub type Word<'a> = &'a [u8];

/// One word, where there is no separator.
pub fn one_word(text: &[u8], separator: u8) -> Option<&[u8]>
    ensures { let word = one_of (parts separator text.now) in
        MatchOption result (word ≡ None) (λ w. word ≡ Some w.now) }
{
    match cut(text, separator) {
        None => Some(text),
        Some(_) => None,
    }
}

/// Two words with a separator between them.
pub fn two_words(text: &[u8], separator: u8) -> Option<(Word<'_>, Word<'_>)>
    ensures { let words = two_of (parts separator text.now) in
        MatchOption result (words ≡ None) (λ w. words ≡ Some (w.0.now, w.1.now)) }
{
    let (first, rest) = cut(text, separator)?;
    let second = one_word(rest, separator)?;
    Some((first, second))
}

/// Three words.
pub fn three_words(text: &[u8], separator: u8) -> Option<(Word<'_>, Word<'_>, Word<'_>)>
    ensures { let words = three_of (parts separator text.now) in
        MatchOption result (words ≡ None) (λ w. words ≡ Some (w.0.now, w.1.now, w.2.now)) }
{
    let (first, rest) = cut(text, separator)?;
    let (second, third) = two_words(rest, separator)?;
    Some((first, second, third))
}
