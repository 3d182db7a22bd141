ghost use Rattle.std.specs.Prelude.{◌≡◌, ◌≤◌, [], ◌∷◌, List, ℕ, false, IfSome, IfNone, length};
ghost use Rattle.hc_commands.specs.Words.{parts, quoted_behind, words_of, word_end, continues, BeginsWithWord, is_comment, is_skipped};

// Whether a byte parts words, inside of quotes or outside.
fn parts_words(quoted: bool, byte: u8) -> bool
    ensures { result ≡ parts quoted byte }
{
    if quoted {
        byte == b'\n'
    } else {
        byte == b' ' || byte == b'\n'
    }
}

// Whether what follows a byte of a word stands inside of quotes.
fn is_quoted_behind(quoted: bool, byte: u8) -> bool
    ensures { result ≡ quoted_behind quoted byte }
{
    if byte == b'"' { !quoted } else { quoted }
}

/// The bytes from the first word on.
pub(crate) fn without_blanks(bytes: &[u8]) -> &[u8]
    ensures same { words_of result.now ≡ words_of bytes.now }
    ensures word { BeginsWithWord result.now }
{
    let mut rest = bytes;
    while let [b' ' | b'\n', after @ ..] = rest {
        rest = after;
    }
    rest
}

// How many bytes stand before the first that parts words.
fn end_of_word(bytes: &[u8]) -> usize
    ensures end { result ≡ word_end false bytes.now }
    ensures within { result ≤ length bytes.now }
{
    let mut quoted = false;
    for (i, byte) in bytes.iter().enumerate() {
        // Most bytes of a word are neither blanks nor quotes, and stand behind them.
        if *byte <= b'"' {
            if parts_words(quoted, *byte) {
                return i;
            }
            quoted = is_quoted_behind(quoted, *byte);
        }
    }
    bytes.len()
}

/// Whether a word goes on here, outside of quotes.
pub(crate) fn word_goes_on(bytes: &[u8]) -> bool
    ensures { result ≡ continues false bytes.now }
{
    match bytes {
        [byte, ..] => !parts_words(false, *byte),
        [] => false,
    }
}

/// The first word, and what stands behind it.
pub fn first_word(bytes: &[u8]) -> Option<(&[u8], &[u8])>
    ensures some { IfSome result (λ found. words_of bytes.now ≡ found.0.now ∷ words_of found.1.now) }
    ensures none { IfNone result (words_of bytes.now ≡ []) }
{
    let rest = without_blanks(bytes);
    if rest.is_empty() {
        return None;
    }
    let end = end_of_word(rest);
    Some((&rest[..end], &rest[end..]))
}

/// The one word that there is.
pub fn only_word(bytes: &[u8]) -> Option<&[u8]>
    ensures some { IfSome result (λ word. words_of bytes.now ≡ word.now ∷ []) }
    ensures none { IfNone result ((word : List ℕ) → words_of bytes.now ≡ word ∷ [] → ⊥) }
{
    let Some((word, rest)) = first_word(bytes) else {
        return None;
    };
    match first_word(rest) {
        Some(_) => None,
        None => Some(word),
    }
}

/// Whether a line asks for nothing: a comment, or no word.
pub fn is_passed_over(line: &[u8]) -> bool
    ensures { result ≡ is_skipped line.now }
{
    begins_comment(line) || without_blanks(line).is_empty()
}

fn begins_comment(line: &[u8]) -> bool
    ensures { result ≡ is_comment line.now }
{
    matches!(line, [b';', ..])
}
