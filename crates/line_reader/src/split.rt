//! The parts of a text between signs, and the four fields of a line.
ghost use Rattle.std.specs.Prelude.{◌≡◌, ◌<◌, ◌∷◌, [], length, IfSome, IsNone, Some, None};
ghost use Rattle.line_reader.specs.Split.{parts, parts_after, record_of};

use cell_rows::Four;

/// What stands before the first of these signs in a text, and what after it.
#[tactic(auto, unfolding(crate::specs::Split::parts_after))]
pub fn cut(text: &[u8], sign: u8) -> Option<(&[u8], &[u8])>
    ensures some { IfSome result (λ halves. parts sign text.now ≡ halves.0.now ∷ parts sign halves.1.now) }
    ensures more { IfSome result (λ halves. 0 < length (parts sign halves.1.now)) }
    ensures shorter { IfSome result (λ halves. length halves.1.now < length text.now) }
    ensures none { IsNone result → parts sign text.now ≡ text.now ∷ [] }
{
    for (place, byte) in text.iter().enumerate() {
        if *byte == sign {
            return Some((&text[..place], &text[place + 1..]));
        }
    }
    None
}

/// The record of a line, if it has four fields.
pub fn record_of(line: &[u8]) -> Option<Four<'_>>
    ensures some { IfSome result (λ four. record_of line.now
        ≡ Some (four.first.now ∷ four.second.now ∷ four.third.now ∷ four.fourth.now ∷ [])) }
    ensures none { IsNone result → record_of line.now ≡ None }
{
    let (first, rest) = cut(line, b',')?;
    let (second, rest) = cut(rest, b',')?;
    let (third, fourth) = cut(rest, b',')?;
    match cut(fourth, b',') {
        Some(_) => None,
        None => Some(Four {
            first,
            second,
            third,
            fourth,
        }),
    }
}
