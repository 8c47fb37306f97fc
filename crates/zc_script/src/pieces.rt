// The pieces of a text between separators: a line's words, and the parts of a path.
ghost use Rattle.std.specs.Prelude.{◌≡◌, ◌==◌, ◌<◌, ◌∷◌, [], length, IfSome, MatchOption};
ghost use Rattle.std.specs.Option.{option_map};
ghost use Rattle.zc_num.specs.Words.{found_from};
ghost use Rattle.zc_script.specs.Words.{pieces_between, one_of, two_of, three_of, four_of};

// The place of the first separator.
fn separator_index(separator: u8, text: &[u8]) -> Option<usize>
    ensures value { result ≡ found_from (λ byte. byte == separator) 0 text.now }
    ensures inside { IfSome result (λ at. at < length text.now) }
{
    text.iter().position(|byte| *byte == separator)
}

// What stands before the first separator, and what stands after it.
pub fn split_once(separator: u8, text: &[u8]) -> Option<(&[u8], &[u8])>
    ensures { MatchOption result (pieces_between separator text.now ≡ text.now ∷ []) (λ parts. pieces_between separator text.now ≡ parts.0.now ∷ pieces_between separator parts.1.now) }
{
    match separator_index(separator, text) {
        Some(at) => Some((&text[..at], &text[at + 1..])),
        None => None,
    }
}

// The text, where it is one piece.
pub fn one_piece(separator: u8, text: &[u8]) -> Option<&[u8]>
    ensures { option_map (λ piece. piece.now) result ≡ one_of (pieces_between separator text.now) }
{
    match split_once(separator, text) {
        Some(_) => None,
        None => Some(text),
    }
}

// The pieces of a text that has two.
pub fn two_pieces(separator: u8, text: &[u8]) -> Option<(&[u8], &[u8])>
    ensures { option_map (λ pieces. (pieces.0.now, pieces.1.now)) result ≡ two_of (pieces_between separator text.now) }
{
    let Some((first, rest)) = split_once(separator, text) else {
        return None;
    };
    match one_piece(separator, rest) {
        Some(second) => Some((first, second)),
        None => None,
    }
}

// The pieces of a text that has three.
pub fn three_pieces(separator: u8, text: &[u8]) -> Option<(&[u8], &[u8], &[u8])>
    ensures { option_map (λ pieces. (pieces.0.now, pieces.1.now, pieces.2.now)) result ≡ three_of (pieces_between separator text.now) }
{
    let Some((first, rest)) = split_once(separator, text) else {
        return None;
    };
    match two_pieces(separator, rest) {
        Some((second, third)) => Some((first, second, third)),
        None => None,
    }
}

// The pieces of a text that has four.
pub fn four_pieces(separator: u8, text: &[u8]) -> Option<(&[u8], &[u8], &[u8], &[u8])>
    ensures { option_map (λ pieces. (pieces.0.now, pieces.1.now, pieces.2.now, pieces.3.now)) result ≡ four_of (pieces_between separator text.now) }
{
    let Some((first, rest)) = split_once(separator, text) else {
        return None;
    };
    match three_pieces(separator, rest) {
        Some((second, third, fourth)) => Some((first, second, third, fourth)),
        None => None,
    }
}
