//! A model text, line by line.
ghost use Rattle.std.specs.Prelude.{◌≡◌, ◌<◌, ◌∷◌, length, map};
ghost use Rattle.pb_base.specs.Pieces.{chunk};
ghost use Rattle.pb_base.specs.Words.{words_of};
ghost use Rattle.pb_desk.specs.Lines.{BeginsWith};
ghost use Rattle.pb_model.specs.ModelLines.{said_by, opens_comment, place_in, word_symbol, line_symbols};
ghost use Rattle.pb_model.specs.ModelLines.Symbol.{values};
ghost use Rattle.pb_model.specs.inner.Reading.{Takes};

use crate::fault::ModelFault;
use crate::model::Says;
use crate::reader::Reader;
use memchr::memchr;
use pb_base::{Expected, Place, Word, Words, read_number, words};

/// The first line of a text, and the text after it.
#[derive(Clone, Copy)]
pub struct Cut<'a> {
    pub line: &'a [u8],
    pub behind: &'a [u8],
}

/// Splits the first line off a text, without its LF.
pub fn cut_line(text: &[u8]) -> Cut<'_>
    requires { 0 < length text.now }
    ensures cut { BeginsWith result.line.now text.now result.behind.now }
    ensures shorter { length result.behind.now < length text.now }
{
    match memchr(b'\n', text) {
        Some(end) => Cut {
            line: &text[..end],
            behind: &text[end + 1..],
        },
        None => Cut {
            line: text,
            behind: &[],
        },
    }
}

// Returns what a status line says after its first word.
fn said_by(words: Words<'_>) -> Says
    ensures { result ≡ said_by words.entry }
{
    let mut words = words;
    let Some(word) = words.next() else {
        return Says::Other;
    };
    if words.next().is_some() {
        return Says::Other;
    }
    if word.text == b"SATISFIABLE".as_slice() {
        Says::Satisfiable
    } else {
        Says::Other
    }
}

// True if the line begins with `c`.
fn opens_comment(text: &[u8]) -> bool
    ensures { result ≡ opens_comment text.now }
{
    text.starts_with(b"c")
}

// Returns the place of a word in the line of this number, from 1.
fn place_in(number: u64, word: &Word<'_>) -> Place
    ensures { result ≡ place_in number (chunk word.now) }
{
    Place {
        line: number,
        column: word.column,
    }
}

// Reads the words after the first of a line of values.
fn take_values(reader: &mut Reader, number: u64, words: Words<'_>) -> Result<(), ModelFault>
    ensures { Takes (λ vars. map (word_symbol vars number) words.entry) reader.old reader.new result }
{
    for word in words {
        match reader.take_word(place_in(number, &word), read_number(word.text)) {
            Ok(()) => {}
            Err(fault) => return Err(fault),
        }
    }
    Ok(())
}

// Reads a line of values.
fn take_value_line(
    reader: &mut Reader,
    place: Place,
    number: u64,
    words: Words<'_>,
) -> Result<(), ModelFault>
    ensures { Takes (λ vars. values place ∷ map (word_symbol vars number) words.entry) reader.old reader.new result }
{
    match reader.open_values(place) {
        Ok(()) => take_values(reader, number, words),
        Err(fault) => Err(fault),
    }
}

/// Reads the line of this number, from 1.
pub fn take_line(reader: &mut Reader, number: u64, line: &[u8]) -> Result<(), ModelFault>
    ensures { Takes (λ vars. line_symbols vars number (words_of line.now)) reader.old reader.new result }
{
    let mut words = words(line);
    let Some(first) = words.next() else {
        return Ok(());
    };
    if opens_comment(first.text) {
        return Ok(());
    }
    let place = place_in(number, &first);
    if first.text == b"s".as_slice() {
        return reader.take_status(place, said_by(words));
    }
    if first.text == b"v".as_slice() {
        return take_value_line(reader, place, number, words);
    }
    Err(ModelFault::Token {
        place,
        expected: Expected::ModelLine,
    })
}
