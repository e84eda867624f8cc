// What a command line asks: which files, and the form of the proof.
ghost use Rattle.std.specs.Prelude.{◌≡◌, map, IfOk, string_bytes};
ghost use Rattle.lls_base.specs.Results.{Gives};
ghost use Rattle.lls_hinting.specs.Words.{form_named, is_bare, nothing_taken, request_in, request_of, with_value, with_word, words_taken};

use crate::words_error::WordsError;
use lls_base::Name;
use lls_drat::Form;
use std::alloc::{AllocError, Global};
use std::marker::Model;

/// What a command line asks: hints for the proof of a formula, in a file.
#[derive(Debug, Drop)]
pub struct Request {
    pub formula: Name,
    pub proof: Name,
    pub output: Name,
    /// The form of the proof, where the words say it.
    pub form: Option<Form>,
}

/// An operand, with the place of its word, from 1.
#[derive(Debug, Drop)]
pub(crate) struct Operand {
    place: u64,
    name: Name,
}

// The words so far, from the left.
#[derive(Drop)]
struct Words {
    operands: Vec<Operand>,
    form: Option<Form>,
    // Whether the last word is the option, whose value comes next.
    waits: bool,
}

impl Model for Words {
    ghost use Rattle.lls_hinting.specs.Words.{Taken};

    ghost Value = { Taken };

    ghost view = { λ w. record { operands = w.operands.items; form = w.form; waits = w.waits } };
}

impl Words {
    // Takes one more word. After an error nothing more is said of the words.
    fn take(&mut self, alloc: Global, place: u64, word: &str) -> Result<(), WordsError>
        ensures { Gives WordsError.Memory (λ _. self.new) result (with_word place self.old word.now) }
    {
        if self.waits {
            return self.take_value(place, word);
        }
        if word == "--form" {
            if self.form.is_some() {
                return Err(WordsError::RepeatedOption(place));
            }
            self.waits = true;
            return Ok(());
        }
        if !is_bare(word) {
            return Err(WordsError::BadWord(place));
        }
        let name = Name::new(String::from_str(alloc, word)?);
        self.operands.push(Operand { place, name })?;
        Ok(())
    }

    // Takes the value of the option.
    fn take_value(&mut self, place: u64, word: &str) -> Result<(), WordsError>
        ensures { Gives WordsError.Memory (λ _. self.new) result (with_value place self.old word.now) }
    {
        let Some(form) = form_named(word) else {
            return Err(WordsError::BadValue(place));
        };
        self.form = Some(form);
        self.waits = false;
        Ok(())
    }
}

// Whether a word isn't empty and doesn't begin with `-`.
fn is_bare(word: &str) -> bool
    ensures { result ≡ is_bare word.now }
{
    match word.as_bytes() {
        [] => false,
        [first, ..] => *first != b'-',
    }
}

// The form of that name.
fn form_named(name: &str) -> Option<Form>
    ensures { result ≡ form_named name.now }
{
    if name == "text" {
        return Some(Form::Text);
    }
    if name == "binary" {
        return Some(Form::Binary);
    }
    None
}

// The words of a command line, one after another.
fn take_words(alloc: Global, words: &[String]) -> Result<Words, WordsError>
    ensures { Gives WordsError.Memory (λ w. w) result (words_taken 1 nothing_taken (map string_bytes words.now)) }
{
    let mut taken = Words {
        operands: Vec::new(alloc),
        form: None,
        waits: false,
    };
    let mut k = 0;
    while k < words.len() {
        match taken.take(alloc, k as u64 + 1, words[k].as_str()) {
            Ok(()) => k += 1,
            Err(error) => return Err(error),
        }
    }
    Ok(taken)
}

// A name again.
fn copied(alloc: Global, name: &Name) -> Result<Name, AllocError>
    ensures { IfOk result (λ again. again ≡ name.now) }
{
    Ok(Name::new(String::from_str(alloc, name.text())?))
}

// What the words ask, of which there are so many.
fn request_of(alloc: Global, words: &Words, count: u64) -> Result<Request, WordsError>
    ensures { Gives WordsError.Memory (λ r. r) result (request_of count words.now) }
{
    if words.waits {
        return Err(WordsError::MissingValue(count));
    }
    let [formula, proof, output] = words.operands.as_slice() else {
        return Err(WordsError::Operands(3, words.operands.len() as u64));
    };
    if output.name == formula.name || output.name == proof.name {
        return Err(WordsError::SameName(output.place));
    }
    Ok(Request {
        formula: copied(alloc, &formula.name)?,
        proof: copied(alloc, &proof.name)?,
        output: copied(alloc, &output.name)?,
        form: words.form,
    })
}

/// What a command line asks, or the first fault of its words.
pub fn read_request(alloc: Global, words: &[String]) -> Result<Request, WordsError>
    ensures { Gives WordsError.Memory (λ r. r) result (request_in (map string_bytes words.now)) }
{
    let taken = take_words(alloc, words)?;
    request_of(alloc, &taken, words.len() as u64)
}
