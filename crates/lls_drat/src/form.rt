// The two forms in which a proof is written.
ghost use Rattle.std.specs.Prelude.{◌≡◌, take};
ghost use Rattle.std.specs.List.{list_all};
ghost use Rattle.lls_drat.specs.Form.{end_byte, is_text_byte, recognised};

/// How a proof is written.
#[derive(Clone, Copy, Debug, PartialEq, Eq)]
pub enum Form {
    /// A line a lemma, in words.
    Text,
    /// A lemma is a letter, numbers of seven bits a byte, and a byte 0.
    Binary,
}

// How many bytes tell the form.
const MOST_LOOKED: usize = 10;

/// The form of a proof that begins so: text where its first ten bytes, or all if there are fewer, are such as a text has.
pub fn recognise(start: &[u8]) -> Form
    ensures { result ≡ recognised start.now }
{
    if begins_text(start) {
        Form::Text
    } else {
        Form::Binary
    }
}

fn begins_text(start: &[u8]) -> bool
    ensures { result ≡ list_all is_text_byte (take MOST_LOOKED start.now) }
{
    start
        .iter()
        .take(MOST_LOOKED)
        .all(|byte| is_text_byte(*byte))
}

// Whether a text may begin with that byte: LF, CR, a space, `-`, a digit, or one from `A` to `z`.
fn is_text_byte(byte: u8) -> bool
    ensures { result ≡ is_text_byte byte }
{
    matches!(byte, b'\n' | b'\r' | b' ' | b'-' | b'0'..=b'9' | b'A'..=b'z')
}

impl Form {
    /// The byte that ends a line, or a lemma.
    pub(crate) fn end_byte(self) -> u8
        ensures { result ≡ end_byte self }
    {
        match self {
            Form::Text => b'\n',
            Form::Binary => 0,
        }
    }
}
