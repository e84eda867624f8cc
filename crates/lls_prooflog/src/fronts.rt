// What a text begins with.
ghost use Rattle.std.specs.Prelude.{◌≡◌, ◌≤◌, ◌<◌, length, IfSome};
ghost use Rattle.std.specs.List.{position_or_len};
ghost use Rattle.std.specs.Option.{option_copied};
ghost use Rattle.lls_text.specs.Words.{is_blank, is_solid, begins_solid};
ghost use Rattle.lls_prooflog.specs.Fronts.{behind_blanks, behind_d};

use lls_text::is_blank;

/// A text without the blanks that stand first.
pub(crate) fn behind_blanks(text: &[u8]) -> &[u8]
    ensures rest { result.now ≡ behind_blanks text.now }
    ensures part { length result.now ≤ length text.now }
{
    &text[blank_len(text)..]
}

/// What stands behind the word `d`, where that is the first.
pub(crate) fn behind_d(text: &[u8]) -> Option<&[u8]>
    ensures rest { option_copied result ≡ behind_d text.now }
    ensures part { IfSome result (λ behind. length behind.now < length text.now) }
{
    let [first, behind @ ..] = text else {
        return None;
    };
    if *first != b'd' || begins_solid(behind) {
        return None;
    }
    Some(behind)
}

/// Whether a word stands right at the begin.
pub(crate) fn begins_solid(text: &[u8]) -> bool
    ensures { result ≡ begins_solid text.now }
{
    match text {
        [first, ..] => is_solid(*first),
        [] => false,
    }
}

/// How many bytes stand before the first blank.
pub(crate) fn solid_len(text: &[u8]) -> usize
    ensures count { result ≡ position_or_len is_blank text.now }
    ensures within { result ≤ length text.now }
{
    text.iter().take_while(|byte| !is_blank(**byte)).count()
}

fn blank_len(text: &[u8]) -> usize
    ensures count { result ≡ position_or_len is_solid text.now }
    ensures within { result ≤ length text.now }
{
    text.iter().take_while(|byte| !is_solid(**byte)).count()
}

fn is_solid(byte: u8) -> bool
    ensures { result ≡ is_solid byte }
{
    !is_blank(byte)
}
