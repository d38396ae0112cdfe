//! The lines of a text, one after another.
ghost use Rattle.std.specs.Prelude.{◌≡◌, ◌+◌, ◌<◌, ◌≤◌, ◌↔◌, [], ◌∷◌, ◌++◌, length, drop, IfSome, IsNone, IsTrue};
ghost use Rattle.std.specs.List.{prefix_len, list_all, flat_map};
ghost use Rattle.ir_core.specs.Lines.{lines_of, isnt_feed, IsFirstLine, fed};

/// How many bytes stand before the first line feed.
fn line_len(text: &[u8]) -> usize
    ensures len { result ≡ prefix_len isnt_feed text.now }
    ensures within { result ≤ length text.now }
{
    text.iter().take_while(|byte| **byte != b'\n').count()
}

/// The bytes without the first one, where there is one.
fn behind_first(bytes: &[u8]) -> &[u8]
    ensures { result.now ≡ drop 1 bytes.now }
{
    match bytes {
        [_, rest @ ..] => rest,
        [] => bytes,
    }
}

/// The first line of a text, without the line feed that ends it, and the text behind it; nothing where
/// the text is empty. So the lines are read one after another, in time linear in the text and without
/// memory.
pub fn split_line(text: &[u8]) -> Option<(&[u8], &[u8])>
    ensures lines { IfSome result (λ split. lines_of text.now ≡ split.0.now ∷ lines_of split.1.now) }
    ensures first { IfSome result (λ split. IsFirstLine text.now split.0.now split.1.now) }
    ensures within { IfSome result (λ split. length split.0.now + length split.1.now ≤ length text.now) }
    ensures shorter { IfSome result (λ split. length split.1.now < length text.now) }
    ensures none { IsNone result ↔ (text.now ≡ []) }
{
    if text.is_empty() {
        return None;
    }
    let (line, rest) = text.split_at(line_len(text));
    Some((line, behind_first(rest)))
}

/// A law, which does nothing: the lines of a text, each with a line feed behind it, are the text with a
/// line feed at its end; and no line has a line feed.
pub fn lines_law(text: &[u8])
    ensures joined { flat_map (λ line. line ++ 10 ∷ []) (lines_of text.now) ≡ fed text.now }
    ensures apart { IsTrue (list_all (list_all isnt_feed) (lines_of text.now)) }
{
    let _ = text;
}
