//! Bytes cut at a separator.

ghost use Rattle.std.specs.Prelude.{◌≡◌, ◌==◌, ◌+◌, ◌≤◌, [], ◌∷◌, length, position, MatchOption, IfSome};
ghost use Rattle.fam_script.specs.Reading.{parts, one_of, two_of, three_of, four_of, five_of, six_of, seven_of};

use memchr::memchr;

/// A word.
type Word<'a> = &'a [u8];

fn place(bytes: &[u8], separator: u8) -> Option<usize>
    ensures { result ≡ position (λ b. b == separator) bytes.now }
{
    memchr(separator, bytes)
}

/// What stands before the first separator and what stands behind it.
pub fn cut(bytes: &[u8], separator: u8) -> Option<(&[u8], &[u8])>
    ensures parts { MatchOption result
        (parts separator bytes.now ≡ bytes.now ∷ [])
        (λ p. parts separator bytes.now ≡ p.0.now ∷ parts separator p.1.now) }
    ensures shorter { IfSome result (λ p. length p.1.now + 1 ≤ length bytes.now) }
{
    match place(bytes, separator) {
        None => None,
        Some(at) => Some((&bytes[..at], &bytes[at + 1..])),
    }
}

/// One word, where there is no space.
pub fn one_word(text: &[u8]) -> Option<&[u8]>
    ensures { let word = one_of (parts 32 text.now) in
        MatchOption result (word ≡ None) (λ w. word ≡ Some w.now) }
{
    match cut(text, b' ') {
        None => Some(text),
        Some(_) => None,
    }
}

/// Two words with a space between them.
pub fn two_words(text: &[u8]) -> Option<(Word<'_>, Word<'_>)>
    ensures { let words = two_of (parts 32 text.now) in
        MatchOption result (words ≡ None) (λ w. words ≡ Some (w.0.now, w.1.now)) }
{
    let (first, rest) = cut(text, b' ')?;
    let second = one_word(rest)?;
    Some((first, second))
}

/// Three words.
pub fn three_words(text: &[u8]) -> Option<(Word<'_>, Word<'_>, Word<'_>)>
    ensures { let words = three_of (parts 32 text.now) in
        MatchOption result (words ≡ None) (λ w. words ≡ Some (w.0.now, w.1.now, w.2.now)) }
{
    let (first, rest) = cut(text, b' ')?;
    let (second, third) = two_words(rest)?;
    Some((first, second, third))
}

/// Four words.
pub fn four_words(text: &[u8]) -> Option<(Word<'_>, Word<'_>, Word<'_>, Word<'_>)>
    ensures { let words = four_of (parts 32 text.now) in
        MatchOption result (words ≡ None) (λ w. words ≡ Some (w.0.now, w.1.now, w.2.now, w.3.now)) }
{
    let (first, rest) = cut(text, b' ')?;
    let (second, third, fourth) = three_words(rest)?;
    Some((first, second, third, fourth))
}

/// Five words.
pub fn five_words(text: &[u8]) -> Option<(Word<'_>, Word<'_>, Word<'_>, Word<'_>, Word<'_>)>
    ensures { let words = five_of (parts 32 text.now) in
        MatchOption result (words ≡ None) (λ w. words ≡ Some (w.0.now, w.1.now, w.2.now, w.3.now, w.4.now)) }
{
    let (first, rest) = cut(text, b' ')?;
    let (second, third, fourth, fifth) = four_words(rest)?;
    Some((first, second, third, fourth, fifth))
}

/// Six words.
pub fn six_words(
    text: &[u8],
) -> Option<(Word<'_>, Word<'_>, Word<'_>, Word<'_>, Word<'_>, Word<'_>)>
    ensures { let words = six_of (parts 32 text.now) in
        MatchOption result (words ≡ None) (λ w. words ≡ Some (w.0.now, w.1.now, w.2.now, w.3.now, w.4.now, w.5.now)) }
{
    let (first, rest) = cut(text, b' ')?;
    let (second, third, fourth, fifth, sixth) = five_words(rest)?;
    Some((first, second, third, fourth, fifth, sixth))
}

/// Seven words.
pub fn seven_words(
    text: &[u8],
) -> Option<
    (
        Word<'_>,
        Word<'_>,
        Word<'_>,
        Word<'_>,
        Word<'_>,
        Word<'_>,
        Word<'_>,
    ),
>
    ensures { let words = seven_of (parts 32 text.now) in
        MatchOption result (words ≡ None) (λ w. words ≡ Some (w.0.now, w.1.now, w.2.now, w.3.now, w.4.now, w.5.now, w.6.now)) }
{
    let (first, rest) = cut(text, b' ')?;
    let (second, third, fourth, fifth, sixth, seventh) = six_words(rest)?;
    Some((first, second, third, fourth, fifth, sixth, seventh))
}
