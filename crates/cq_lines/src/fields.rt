//! Fields of a line, up to its end.
ghost use Rattle.std.specs.Prelude.{◌≡◌, ◌≢◌, ℕ, ◌≤◌, List, ◌∷◌, ◌++◌, length, take, Option, IfSome, IfNone, MatchOption};
ghost use Rattle.cq_lines.specs.Lines.{ending, BeginsWith, Fits, AllFit};

use crate::take_number;

/// The field at the front, and what stands behind it. None where the text begins with no field.
pub fn take_field(text: &[u8]) -> Option<(Option<u128>, &[u8])>
    ensures found { IfSome result (λ f. BeginsWith text.now f.0 f.1.now) }
    ensures none { IfNone result ((f : Option ℕ) (rest : List ℕ) → Fits f → BeginsWith text.now f rest → ⊥) }
{
    if let Some(rest) = behind_byte(text, b'-') {
        return Some((None, rest));
    }
    let (number, rest) = take_number(text)?;
    Some((Some(number), rest))
}

/// Puts the fields up to the end of the line at their places, each of which stands behind one blank. It
/// answers how many they are, and what stands behind the line feed. None where no such line of at most so
/// many fields as there are places stands at the front.
pub fn take_fields<'a>(text: &'a [u8], to: &mut [Option<u128>]) -> Option<(usize, &'a [u8])>
    ensures found { IfSome result (λ f. (f.0 ≤ length to.new) × (text.now ≡ ending (take f.0 to.new) ++ f.1.now)) }
    ensures none { IfNone result ((fs : List (Option ℕ)) (rest : List ℕ) →
        AllFit fs → length fs ≤ length to.old → text.now ≢ ending fs ++ rest) }
{
    let mut rest = text;
    let mut count = 0;
    'fields: while let Some(after) = behind_byte(rest, b' ') {
        if count == to.len() {
            return None;
        }
        let (field, next) = take_field(after)?;
        to[count] = field;
        count += 1;
        rest = next;
    }
    let after = behind_byte(rest, b'\n')?;
    Some((count, after))
}

// What stands behind this byte, where it stands at the front. A word of one byte goes this way, since `strip_prefix`
// costs many times as much.
fn behind_byte(text: &[u8], byte: u8) -> Option<&[u8]>
    ensures { MatchOption result ((rest : List ℕ) → text.now ≢ byte ∷ rest) (λ rest. text.now ≡ byte ∷ rest.now) }
{
    match text {
        [first, rest @ ..] if *first == byte => Some(rest),
        _ => None,
    }
}

/// What stands behind this word, where it stands at the front.
pub fn behind<'a>(text: &'a [u8], word: &[u8]) -> Option<&'a [u8]>
    ensures { MatchOption result ((rest : List ℕ) → text.now ≢ word.now ++ rest)
        (λ rest. text.now ≡ word.now ++ rest.now) }
{
    text.strip_prefix(word)
}
