// Bytes, parts and lines of a file, as every reader of a file needs them. A part is a slice of the file. Nothing here knows what the file is.
#![tactic(auto)]

ghost use Rattle.std.specs.Prelude.{◌≡◌, [], ◌∷◌, ◌++◌, ◌+◌, length, MatchOption, IfSome};
ghost use Rattle.lines.specs.Bytes.{LF};
ghost use Rattle.lines.specs.Parts.{split, ended};

// The first of the parts that c parts, and what stands behind that c: None where the first part is the whole.
pub fn split_first(part: &[u8], c: u8) -> (&[u8], Option<&[u8]>)
    ensures parts { MatchOption result.1 (split c part.now ≡ result.0.now ∷ []) (λ rest. split c part.now ≡ result.0.now ∷ split c rest.now) }
    ensures bytes { MatchOption result.1 (result.0.now ≡ part.now) (λ rest. part.now ≡ result.0.now ++ c ∷ rest.now) }
    ensures sizes { IfSome result.1 (λ rest. length result.0.now + 1 + length rest.now ≡ length part.now) }
{
    match part.iter().position(|b| *b == c) {
        Some(end) => (&part[..end], Some(&part[end + 1..])),
        None => (part, None),
    }
}

// The first line, without its LF, and the text behind it: None where no LF ends a line. A text is walked by `while let` over this one:
// the recursion of `ended` is then the loop, where an iterator of its own would need a law of its runs in every caller.
pub fn next_line(text: &[u8]) -> Option<(&[u8], &[u8])>
    ensures lines { MatchOption result (ended LF text.now ≡ []) (λ x. ended LF text.now ≡ x.0.now ∷ ended LF x.1.now) }
    ensures bytes { IfSome result (λ x. text.now ≡ x.0.now ++ LF ∷ x.1.now) }
    ensures sizes { IfSome result (λ x. length x.0.now + 1 + length x.1.now ≡ length text.now) }
{
    let (line, behind) = split_first(text, b'\n');
    Some((line, behind?))
}
