//! The pieces of a text between marks.

ghost use Rattle.std.specs.Prelude.{◌≡◌, ◌<◌, length, option_copied, IfSome};
ghost use Rattle.module_meaning.specs.DeviceText.{piece, pieces_behind_marks};
ghost use Rattle.text_lines.specs.Pieces.{pieces_of};

/// The text before the first byte `mark`, and the text after it; the whole text if it has no such
/// byte.
#[tactic(auto, unfolding(module_meaning::specs::DeviceText::pieces_behind_marks))]
pub fn split_at(mark: u8, text: &[u8]) -> (&[u8], Option<&[u8]>)
    ensures front { result.0.now ≡ piece mark text.now }
    ensures behind { pieces_behind_marks mark text.now ≡ pieces_of mark (option_copied result.1) }
    ensures shorter { IfSome result.1 (λ rest. length rest.now < length text.now) }
{
    let mut count = 0;
    let mut rest = text;
    while let Some((byte, others)) = rest.split_first() {
        if *byte == mark {
            let (front, _) = text.split_at(count);
            return (front, Some(others));
        }
        count += 1;
        rest = others;
    }
    (text, None)
}
