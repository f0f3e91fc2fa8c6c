//! The words of a text, one after another.
ghost use Rattle.std.specs.Prelude.{◌≡◌, ◌≤◌, ◌∷◌, not, length, map, option_map, MatchOption};
ghost use Rattle.std.specs.List.{position, position_or_len};
ghost use Rattle.std.specs.Str.{bytes_eq};
ghost use Rattle.cell_text.specs.Words.{is_blank, text_words, HasNoWord, only_word, are_words};

fn is_blank(byte: u8) -> bool
    ensures { result ≡ is_blank byte }
{
    byte == b' ' || byte == b'\t'
}

fn word_start(text: &[u8]) -> Option<usize>
    ensures { result ≡ position (λ byte. not (is_blank byte)) text.now }
{
    text.iter().position(|byte| !is_blank(*byte))
}

fn blank_start(text: &[u8]) -> Option<usize>
    ensures { result ≡ position is_blank text.now }
{
    text.iter().position(|byte| is_blank(*byte))
}

fn word_end(text: &[u8]) -> usize
    ensures value { result ≡ position_or_len is_blank text.now }
    ensures within { result ≤ length text.now }
{
    match blank_start(text) {
        Some(end) => end,
        None => text.len(),
    }
}

/// The first word of a text, and what stands behind it.
pub fn next_word(text: &[u8]) -> Option<(&[u8], &[u8])>
    ensures { MatchOption result (HasNoWord text.now)
        (λ w. text_words text.now ≡ w.0.now ∷ text_words w.1.now) }
{
    let Some(start) = word_start(text) else {
        return None;
    };
    let (_, text) = text.split_at(start);
    let end = word_end(text);
    Some(text.split_at(end))
}

/// The word of a text that has exactly one.
pub fn only_word(text: &[u8]) -> Option<&[u8]>
    ensures { option_map (λ w. w.now) result ≡ only_word (text_words text.now) }
{
    let Some((word, rest)) = next_word(text) else {
        return None;
    };
    match next_word(rest) {
        Some(_) => None,
        None => Some(word),
    }
}

/// Whether a word is this text.
pub fn is_text(word: &[u8], text: &str) -> bool
    ensures { result ≡ bytes_eq word.now text.now }
{
    word == text.as_bytes()
}

/// Whether a text has just these words.
pub fn has_words(text: &[u8], words: &[&str]) -> bool
    ensures { result ≡ are_words (text_words text.now) (map (λ w. w.now) words.now) }
{
    let mut rest = text;
    for word in words {
        let Some((next, behind)) = next_word(rest) else {
            return false;
        };
        if !is_text(next, word) {
            return false;
        }
        rest = behind;
    }
    next_word(rest).is_none()
}
