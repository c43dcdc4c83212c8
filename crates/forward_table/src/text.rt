ghost use Rattle.std.specs.Prelude.{◌≡◌, ◌+◌, ◌<◌, ◌==◌, ◌↔◌, [], ◌∷◌, length, MatchOption, IfSome, position, not};
ghost use Rattle.forward_table.specs.Text.{is_blank, lines, without_return, words, content, parts, is_comment};

// Whether the byte is a space or a tab.
fn is_blank(byte: u8) -> bool
    ensures { result ≡ is_blank byte }
{
    byte == b' ' || byte == b'\t'
}

// Where the byte first stands.
fn place_of(text: &[u8], byte: u8) -> Option<usize>
    ensures { result ≡ position (λ other. other == byte) text.now }
{
    text.iter().position(|other| *other == byte)
}

// Where the first word begins.
fn place_of_word(line: &[u8]) -> Option<usize>
    ensures { result ≡ position (λ byte. not (is_blank byte)) line.now }
{
    line.iter().position(|byte| !is_blank(*byte))
}

// Where the first blank stands.
fn place_of_blank(line: &[u8]) -> Option<usize>
    ensures { result ≡ position is_blank line.now }
{
    line.iter().position(|byte| is_blank(*byte))
}

/// The part of the text before the first such byte, and what follows that byte if there is one.
pub(crate) fn cut_at(text: &[u8], separator: u8) -> (&[u8], Option<&[u8]>)
    ensures parts { MatchOption result.1 (parts separator text.now ≡ result.0.now ∷ [])
        (λ rest. parts separator text.now ≡ result.0.now ∷ parts separator rest.now) }
    ensures shorter { IfSome result.1 (λ rest. length rest.now < length text.now) }
{
    match place_of(text, separator) {
        Some(place) => (&text[..place], Some(&text[place + 1..])),
        None => (text, None),
    }
}

/// The text, where no such byte is in it.
#[tactic(auto, using(crate::proofs::Splitting::some_parts))]
pub(crate) fn last_part(text: &[u8], separator: u8) -> Option<&[u8]>
    ensures { MatchOption result (1 < length (parts separator text.now))
        (λ last. parts separator text.now ≡ last.now ∷ []) }
{
    match cut_at(text, separator) {
        (last, None) => Some(last),
        (_, Some(_)) => None,
    }
}

/// The first line of the text, and the text after it; None where the text is empty.
pub(crate) fn first_line(text: &[u8]) -> Option<(&[u8], &[u8])>
    ensures lines { MatchOption result (lines text.now ≡ [])
        (λ found. lines text.now ≡ found.0.now ∷ lines found.1.now) }
    ensures shorter { IfSome result (λ found. length found.1.now < length text.now) }
{
    if text.is_empty() {
        return None;
    }
    match place_of(text, b'\n') {
        Some(place) => Some((&text[..place], &text[place + 1..])),
        None => Some((text, &text[text.len()..])),
    }
}

/// The first word of the line, and the line after it; None where it has no word.
pub(crate) fn first_word(line: &[u8]) -> Option<(&[u8], &[u8])>
    ensures { MatchOption result (words line.now ≡ [])
        (λ found. words line.now ≡ found.0.now ∷ words found.1.now) }
{
    let start = place_of_word(line)?;
    let rest = &line[start..];
    match place_of_blank(rest) {
        Some(end) => Some((&rest[..end], &rest[end..])),
        None => Some((rest, &rest[rest.len()..])),
    }
}

/// The first word of a route line, and the line after it; None for an empty line and for a comment.
pub(crate) fn route_words(line: &[u8]) -> Option<(&[u8], &[u8])>
    ensures { MatchOption result (content line.now ≡ [])
        (λ found. content line.now ≡ found.0.now ∷ words found.1.now) }
{
    let (word, rest) = first_word(without_return(line))?;
    if is_comment(word) {
        None
    } else {
        Some((word, rest))
    }
}

// The line without a carriage return at its very end.
fn without_return(line: &[u8]) -> &[u8]
    ensures { result.now ≡ without_return line.now }
{
    match line.last() {
        Some(b'\r') => &line[..line.len() - 1],
        _ => line,
    }
}

// Whether the word begins a comment.
fn is_comment(word: &[u8]) -> bool
    ensures { result ≡ is_comment word.now }
{
    matches!(word, [b'#', ..])
}
