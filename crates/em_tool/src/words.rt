// The words of a program: `B M FILE ..`, the records of a block, the frames, and the names of its files.
ghost use Rattle.std.specs.Prelude.{◌≡◌, ◌+◌, length, OnOk};
ghost use Rattle.em_tool.specs.Names.{names_of};
ghost use Rattle.em_tool.specs.Words.{named_shape, number_at, shape_for, shape_with};

use crate::failure::Failure;
use crate::names::name_at;
use em_lines::number;
use em_record::Shape;

/// The number that the word of this number spells, or `Usage`.
fn number_at(words: &[String], place: usize) -> Result<u64, Failure>
    ensures { result ≡ number_at (names_of words.now) place }
{
    match number(name_at(words, place).as_bytes()) {
        Ok(value) => Ok(value),
        Err(_) => Err(Failure::Usage),
    }
}

/// The shape of two numbers, or the first rule that they break.
fn shape_with(block: u64, frames: u64) -> Result<Shape, Failure>
    ensures { result ≡ shape_with block frames }
{
    match Shape::new(block, frames) {
        Ok(shape) => Ok(shape),
        Err(fault) => Err(Failure::Shape(fault)),
    }
}

/// The shape that the first two words spell. `Usage`: one of them is no number. `Shape`: they break a rule.
fn named_shape(words: &[String]) -> Result<Shape, Failure>
    ensures { result ≡ named_shape (names_of words.now) }
{
    let block = number_at(words, 0)?;
    let frames = number_at(words, 1)?;
    shape_with(block, frames)
}

/// The shape that the words of a program name which wants this many files. `Usage`: there are more words or fewer, or
/// the first two are no numbers. `Shape`: the numbers break a rule.
pub fn shape_for(words: &[String], files: usize) -> Result<Shape, Failure>
    ensures shape { result ≡ shape_for files (names_of words.now) }
    ensures count { OnOk result (length words.now ≡ 2 + files) }
{
    if words.len() < 2 || words.len() - 2 != files {
        return Err(Failure::Usage);
    }
    named_shape(words)
}
