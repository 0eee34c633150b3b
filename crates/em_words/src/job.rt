ghost use Rattle.std.specs.Prelude.{◌≡◌, ◌+◌, ◌-◌, ◌<◌, ◌≤◌, ◌^◌, false, length, IfOk};
ghost use Rattle.em_words.specs.Job.{texts_of, job_of, task_name, task_of, made_task_of, blocks_with, count_at, count_within, default_frames, job_by, job_with, made_job, name_at, number_at, operand_count, operands_by, operands_of, operands_wanted, shape_with, task_at, task_with, uninit_with, verb_of, IsCount, IsJob, IsOrigin};

use crate::option::{
    BLOCK, BLOCKS, EARLY, FRAMES, STATS, UNINIT, WIDE, combine_with, has_option, number_or,
    option_words, test_options, word_of,
};
use em_ends::{Usage, UsageKind};
use em_lines::{FileKind, number};
use em_record::{Shape, ShapeFault};
use em_settle::Combine;

/// What a run does with its files.
#[derive(Clone, Copy, Debug, PartialEq, Eq, Drop)]
pub enum Task {
    /// A file of commands is answered. The adds of a map file are joined by `combine`, with `early` each run of them also
    /// before it enters the structure that answers them. A dump is never early.
    Answer {
        kind: FileKind,
        combine: Combine,
        early: bool,
    },
    /// A circuit is evaluated on a stimulus, which is its second file. An uninitialised latch begins with
    /// the bit `uninit`; without it a circuit that has one is refused. With `wide` up to 64 steps are taken
    /// at once, and a circuit that has latches is refused.
    Eval {
        uninit: Option<bool>,
        wide: bool,
    },
}

/// Where the texts of a run come from.
#[derive(Clone, Copy, Debug, PartialEq, Eq, Drop)]
pub enum Origin {
    /// The files that the words name.
    Files,
    /// They are made from two numbers: docs/FORMATS.md, "Made texts".
    Made { start: u64, count: u64 },
}

/// What a command asks for.
#[derive(Clone, Copy, Debug, PartialEq, Eq, Drop)]
pub enum Verb {
    /// A task over files.
    Over(Task),
    /// A task over made texts, which the first operand names. None is a dump.
    Generate,
}

/// What the words ask for: a task on texts of this origin, by a shape and over a device of `blocks`
/// blocks. Its first operand is the word of number `file`: the name of its first file, which that of
/// a second one follows, or of made texts the task's name. With `stats` the run tells its moves.
#[derive(Clone, Copy, Debug, PartialEq, Eq)]
pub struct Job {
    pub task: Task,
    pub origin: Origin,
    pub shape: Shape,
    pub blocks: u64,
    pub stats: bool,
    pub file: u64,
}

/// The records of a block where no option says their number.
const DEFAULT_BLOCK: u64 = 1024;

/// The blocks of a device where no option says their number.
const DEFAULT_BLOCKS: u64 = 1 << 20;

/// The most blocks of a device.
const MOST_BLOCKS: u64 = 1 << 40;

/// The evaluation of a circuit by no option of its own.
const PLAIN_EVAL: Task = Task::Eval {
    uninit: None,
    wide: false,
};

/// The most lines or gates of a made text.
const MOST_COUNT: u64 = 1 << 30;

/// The word of a task.
pub fn task_name(task: Task) -> &'static [u8]
    ensures is { result.now ≡ task_name task }
    ensures short { length result.now ≤ 20 }
{
    match task {
        Task::Answer {
            kind: FileKind::Map,
            ..
        } => b"map",
        Task::Answer {
            kind: FileKind::Queue,
            ..
        } => b"queue",
        Task::Answer {
            kind: FileKind::Stab,
            ..
        } => b"stab",
        Task::Answer {
            kind: FileKind::Dump,
            ..
        } => b"dump",
        Task::Eval { .. } => b"eval",
    }
}

/// The answering of a file of this kind by no option of its own.
fn answering(kind: FileKind) -> Task
    ensures { result ≡ Task.Answer kind Combine.Sum false }
{
    Task::Answer {
        kind,
        combine: Combine::Sum,
        early: false,
    }
}

/// The task of a word of those for which `gen` makes texts, by no option of its own.
fn made_task_of(word: &str) -> Option<Task>
    ensures { result ≡ made_task_of word.now }
{
    let word = word.as_bytes();
    if word == task_name(answering(FileKind::Map)) {
        Some(answering(FileKind::Map))
    } else if word == task_name(answering(FileKind::Queue)) {
        Some(answering(FileKind::Queue))
    } else if word == task_name(answering(FileKind::Stab)) {
        Some(answering(FileKind::Stab))
    } else if word == task_name(PLAIN_EVAL) {
        Some(PLAIN_EVAL)
    } else {
        None
    }
}

/// The task of a command over files, before its options are read.
fn task_of(word: &str) -> Option<Task>
    ensures { result ≡ task_of word.now }
{
    if word.as_bytes() == task_name(answering(FileKind::Dump)) {
        return Some(answering(FileKind::Dump));
    }
    made_task_of(word)
}

/// What the word of a command asks for.
fn verb_of(word: &str) -> Option<Verb>
    ensures { result ≡ verb_of word.now }
{
    if word.as_bytes() == b"gen".as_slice() {
        return Some(Verb::Generate);
    }
    match task_of(word) {
        Some(task) => Some(Verb::Over(task)),
        None => None,
    }
}

/// The frames where no option says their number, by the records of a block.
fn default_frames(block: u64) -> u64
    ensures { result ≡ default_frames block }
{
    256.min(8 * (block / 16))
}

/// The shape that the options say.
fn shape_with(options: &[String]) -> Result<Shape, Usage>
    ensures { result ≡ shape_with (texts_of options.now) }
{
    let block = number_or(options, BLOCK, DEFAULT_BLOCK);
    let frames = number_or(options, FRAMES, default_frames(block));
    match Shape::new(block, frames) {
        Ok(shape) => Ok(shape),
        Err(ShapeFault::BlockRange) => Err(Usage {
            kind: UsageKind::BlockRange,
            word: word_of(options, BLOCK),
        }),
        Err(ShapeFault::FramesRange) => Err(Usage {
            kind: UsageKind::FramesRange,
            word: word_of(options, FRAMES),
        }),
        Err(ShapeFault::FramesMultiple) => Err(Usage {
            kind: UsageKind::FramesMultiple,
            word: word_of(options, FRAMES),
        }),
    }
}

/// The blocks of the device that the options say.
fn blocks_with(options: &[String]) -> Result<u64, Usage>
    ensures { result ≡ blocks_with (texts_of options.now) }
{
    let blocks = number_or(options, BLOCKS, DEFAULT_BLOCKS);
    if blocks == 0 || blocks > MOST_BLOCKS {
        return Err(Usage {
            kind: UsageKind::BlocksRange,
            word: word_of(options, BLOCKS),
        });
    }
    Ok(blocks)
}

/// The bit with which an uninitialised latch begins, if an option says it.
fn uninit_with(options: &[String]) -> Option<bool>
    ensures { result ≡ uninit_with (texts_of options.now) }
{
    let value = number_or(options, UNINIT, 2);
    if value == 0 {
        Some(false)
    } else if value == 1 {
        Some(true)
    } else {
        None
    }
}

/// The task as the options say.
fn task_with(task: Task, options: &[String]) -> Task
    ensures { result ≡ task_with task (texts_of options.now) }
{
    match task {
        Task::Answer { kind, .. } => Task::Answer {
            kind,
            combine: combine_with(options),
            early: has_option(options, EARLY),
        },
        Task::Eval { .. } => Task::Eval {
            uninit: uninit_with(options),
            wide: has_option(options, WIDE),
        },
    }
}

/// How many operands a task has: a name for each of its files.
fn operand_count(task: Task) -> u64
    ensures is { result ≡ operand_count task }
    ensures few { result ≤ 2 }
{
    match task {
        Task::Answer { .. } => 1,
        Task::Eval { .. } => 2,
    }
}

/// How many operands a command has: a kind, a start and a count for made texts.
fn operands_wanted(verb: Verb) -> u64
    ensures is { result ≡ operands_wanted verb }
    ensures few { result ≤ 3 }
{
    match verb {
        Verb::Over(task) => operand_count(task),
        Verb::Generate => 3,
    }
}

/// The number of the first operand's word, of `count` words: that is the word of number `first`,
/// and the last of the `wanted` operands is the last word.
fn operands_of(wanted: u64, first: u64, count: u64) -> Result<u64, Usage>
    requires { first + wanted < 2 ^ 64 }
    ensures { result ≡ operands_of wanted first count }
{
    if count < first + wanted {
        return Err(Usage {
            kind: UsageKind::MissingOperand,
            word: count,
        });
    }
    if first + wanted < count {
        return Err(Usage {
            kind: UsageKind::ExtraOperand,
            word: first + wanted,
        });
    }
    Ok(first)
}

/// The word of this number, or an empty one if there is none.
pub fn name_at(words: &[String], number: u64) -> &str
    ensures is { result.now ≡ name_at (texts_of words.now) number }
{
    if number >= words.len() as u64 {
        return "";
    }
    words[number as usize].as_str()
}

/// The task that the word of this number names, of those for which `gen` makes texts.
fn task_at(words: &[String], word: u64) -> Result<Task, Usage>
    ensures { result ≡ task_at (texts_of words.now) word }
{
    match made_task_of(name_at(words, word)) {
        Some(task) => Ok(task),
        None => Err(Usage {
            kind: UsageKind::UnknownKind,
            word,
        }),
    }
}

/// The number that the word of this number spells.
fn number_at(words: &[String], word: u64) -> Result<u64, Usage>
    ensures { result ≡ number_at (texts_of words.now) word }
{
    match number(name_at(words, word).as_bytes()) {
        Ok(value) => Ok(value),
        Err(_) => Err(Usage {
            kind: UsageKind::BadValue,
            word,
        }),
    }
}

/// A count of lines or gates that the word of this number says, where it is in its range.
fn count_within(word: u64, count: u64) -> Result<u64, Usage>
    ensures says { result ≡ count_within word count }
    ensures is { IfOk result IsCount }
{
    if count == 0 || count > MOST_COUNT {
        return Err(Usage {
            kind: UsageKind::CountRange,
            word,
        });
    }
    Ok(count)
}

/// The count of lines or gates that the word of this number spells.
fn count_at(words: &[String], word: u64) -> Result<u64, Usage>
    ensures says { result ≡ count_at (texts_of words.now) word }
    ensures is { IfOk result IsCount }
{
    let count = number_at(words, word)?;
    count_within(word, count)
}

/// The job of a task on texts of this origin, over what the options say. Its operands are the words
/// from number `file` on.
fn job_with(task: Task, origin: Origin, options: &[String], file: u64) -> Result<Job, Usage>
    requires origin { IsOrigin origin }
    ensures job { result ≡ job_with task origin (texts_of options.now) file }
    ensures is { IfOk result (IsJob (file + operands_by origin task)) }
{
    let shape = shape_with(options)?;
    let blocks = blocks_with(options)?;
    Ok(Job {
        task,
        origin,
        shape,
        blocks,
        stats: has_option(options, STATS),
        file,
    })
}

/// The job of `gen`, by its three operands, of which the first is the word of number `file`.
fn made_job(words: &[String], options: &[String], file: u64) -> Result<Job, Usage>
    requires { file < 2 ^ 64 - 2 }
    ensures job { result ≡ made_job (texts_of words.now) (texts_of options.now) file }
    ensures is { IfOk result (IsJob (file + 3)) }
{
    let task = task_at(words, file)?;
    let start = number_at(words, file + 1)?;
    let count = count_at(words, file + 2)?;
    job_with(task, Origin::Made { start, count }, options, file)
}

/// The job of a command, by all words and by those that are options. Its operands are the words from
/// number `file` on.
fn job_by(verb: Verb, words: &[String], options: &[String], file: u64) -> Result<Job, Usage>
    requires { file < 2 ^ 64 - 2 }
    ensures job { result ≡ job_by verb (texts_of words.now) (texts_of options.now) file }
    ensures is { IfOk result (IsJob (file + operands_wanted verb)) }
{
    match verb {
        Verb::Over(task) => job_with(task_with(task, options), Origin::Files, options, file),
        Verb::Generate => made_job(words, options, file),
    }
}

/// The job that the words name, or their first refusal.
pub fn read_job(words: &[String]) -> Result<Job, Usage>
    ensures job { result ≡ job_of (texts_of words.now) }
    ensures is { IfOk result (IsJob (length words.now)) }
{
    let Some(command) = words.first() else {
        return Err(Usage {
            kind: UsageKind::NoCommand,
            word: 0,
        });
    };
    let Some(verb) = verb_of(command.as_str()) else {
        return Err(Usage {
            kind: UsageKind::UnknownCommand,
            word: 0,
        });
    };
    let options = option_words(&words[1..]);
    test_options(verb, options)?;
    let first = options.len() as u64 + 1;
    let file = operands_of(operands_wanted(verb), first, words.len() as u64)?;
    job_by(verb, words, options, file)
}
