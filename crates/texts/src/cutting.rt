// A text is cut into lines, and a line into words.
ghost use Rattle.std.specs.Prelude.{◌≡◌, ◌<◌, ◌+◌, ℕ, Bool, length, IfSome};
ghost use Rattle.std.specs.List.{before_first};
ghost use Rattle.std.specs.Option.{option_map};
ghost use Rattle.texts.specs.Cutting.{Computes, is_blank, ends_word, from_first, first_line, first_word, lines_of, lines_by, words_of, words_by, LinesCutBack, WordsCutBack};

/// The first line of a text without its end, and what follows it. Call by call it gives all lines of the text, and
/// lines that are written with their ends come back as they were.
#[tactic(auto, using(crate::proofs::Rows::rows))]
pub fn next_line(text: &[u8]) -> Option<(&[u8], &[u8])>
    ensures value { option_map (λ p. (p.0.now, p.1.now)) result ≡ first_line text.now }
    ensures lines { lines_of text.now ≡ lines_by (option_map (λ p. (p.0.now, p.1.now)) result) }
    ensures back { LinesCutBack }
    ensures shorter { IfSome result (λ p. length p.1.now < length text.now) }
{
    if text.is_empty() {
        return None;
    }
    let (line, rest) = split_at_first(text, |byte| byte == b'\n');
    match rest {
        [_, behind @ ..] => Some((line, behind)),
        [] => Some((line, rest)),
    }
}

/// The first word of a line, and what is left of the line. A `#` begins a comment, in which there are no words.
/// Call by call it gives all words of the line, and words with one blank between them come back as they were.
#[tactic(auto, using(crate::proofs::Pieces::words))]
pub fn next_word(line: &[u8]) -> Option<(&[u8], &[u8])>
    ensures value { option_map (λ p. (p.0.now, p.1.now)) result ≡ first_word line.now }
    ensures words { words_of line.now ≡ words_by (option_map (λ p. (p.0.now, p.1.now)) result) }
    ensures back { WordsCutBack }
    ensures shorter { IfSome result (λ p. length p.1.now < length line.now) }
{
    let (_, rest) = split_at_first(line, |byte| !is_blank(byte));
    let (word, rest) = split_at_first(rest, ends_word);
    if word.is_empty() {
        return None;
    }
    Some((word, rest))
}

// The bytes before the first that passes a test, and those from it on.
fn split_at_first<F: Fn(u8) -> bool>(bytes: &[u8], test: F) -> (&[u8], &[u8])
    requires { F.IsAlwaysCallable test }
    ensures parts { (p : ℕ → Bool) → Computes (F.post test) p → (result.0.now ≡ before_first p bytes.now) × (result.1.now ≡ from_first p bytes.now) }
    ensures lengths { length result.0.now + length result.1.now ≡ length bytes.now }
{
    let end = bytes
        .iter()
        .position(|byte| test(*byte))
        .unwrap_or(bytes.len());
    bytes.split_at(end)
}

// Space, tab, carriage return, vertical tab and form feed.
fn is_blank(byte: u8) -> bool
    ensures { result ≡ is_blank byte }
{
    matches!(byte, b' ' | b'\t' | b'\r' | 11 | 12)
}

// A blank, or a comment's beginning.
fn ends_word(byte: u8) -> bool
    ensures { result ≡ ends_word byte }
{
    is_blank(byte) || byte == b'#'
}
