//! Words of a line.

ghost use Rattle.std.specs.Prelude.{◌≡◌, ◌⊎◌, ℕ, ◌+◌, ◌<◌, ◌≤◌, [], ◌∷◌, ◌++◌, length, slice_index, slice_range, MatchOption};
ghost use Rattle.bl_script.specs.Lines.{without_return, word_of, words, NoBlank};

use memchr::memchr;

/// The line, one 0x0D at its end dropped.
pub fn without_return(line: &[u8]) -> &[u8]
    ensures { result.now ≡ without_return line.now }
{
    let n = line.len();
    if n > 0 && line[n - 1] == 13 {
        &line[..n - 1]
    } else {
        line
    }
}

// The first blank from a place on; the line's end, where there is none.
fn word_end(line: &[u8], start: usize) -> usize
    requires { start ≤ length line.now }
    ensures from { start ≤ result }
    ensures within { result ≤ length line.now }
    ensures letters { NoBlank (slice_range line.now start result) }
    ensures ends { (length line.now ≤ result) ⊎ (slice_index line.now result ≡ 32) }
{
    match memchr(b' ', &line[start..]) {
        Some(count) => start + count,
        None => line.len(),
    }
}

// The first word, if there is one, and what is behind it.
fn word_and_rest(line: &[u8]) -> (&[u8], &[u8])
    ensures words { words line.now ≡ word_of result.0.now ++ words result.1.now }
    ensures none { result.0.now ≡ [] → words line.now ≡ [] }
    ensures short { length result.0.now + length result.1.now ≤ length line.now }
{
    let n = line.len();
    let mut start = 0;
    'blanks: while start < n && line[start] == b' ' {
        start += 1;
    }
    let end = word_end(line, start);
    (&line[start..end], &line[end..])
}

/// The first word, and what is behind it; None where there is no word.
pub(crate) fn next_word(line: &[u8]) -> Option<(&[u8], &[u8])>
    ensures words { MatchOption result (words line.now ≡ []) (λ r. words line.now ≡ r.0.now ∷ words r.1.now) }
    ensures short { MatchOption result (Unit {0}) (λ r. (0 < length r.0.now) × (length r.0.now + length r.1.now ≤ length line.now)) }
{
    let (word, rest) = word_and_rest(line);
    if word.is_empty() {
        None
    } else {
        Some((word, rest))
    }
}
