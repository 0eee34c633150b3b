// The option words of a command. Words are numbered from 0, so the first option word is word 1.
ghost use Rattle.std.specs.List.{list_any};
ghost use Rattle.std.specs.Prelude.{◌≡◌, ◌+◌, ◌==◌, [], bytes_eq, not, position, string_bytes};
ghost use Rattle.std.specs.Result.{result_err};
ghost use Rattle.em_words.specs.Job.{texts_of};
ghost use Rattle.em_words.specs.Options.{has_name, has_option, has_value, is_option, combine_of, combine_with, flag_names, own_names, name_of, number_in, number_or, knows, option_fault, option_words, options_refusal, word_of};

use crate::job::{Task, Verb};
use em_ends::{Usage, UsageKind};
use em_lines::{FileKind, number};
use em_settle::Combine;

/// The option that gives the records of a block.
pub const BLOCK: &[u8] = b"--block";

/// The option that gives the number of frames.
pub const FRAMES: &[u8] = b"--frames";

/// The option that gives the number of the device's blocks.
pub const BLOCKS: &[u8] = b"--blocks";

/// The option that asks for statistics.
pub const STATS: &[u8] = b"--stats";

/// The option that gives the bit with which an uninitialised latch begins.
pub const UNINIT: &[u8] = b"--uninit";

/// The option that takes many steps of a circuit at once.
pub const WIDE: &[u8] = b"--wide";

/// The option that joins each run of adds of a map file before it enters the structure that answers them.
pub const EARLY: &[u8] = b"--early";

/// The option that names how the adds of a map file are joined.
const COMBINE: &[u8] = b"--combine";

/// The words that are this option.
const COMBINE_SUM: &[u8] = b"--combine=sum";

const COMBINE_MAX: &[u8] = b"--combine=max";

const COMBINE_MIN: &[u8] = b"--combine=min";

const COMBINE_XOR: &[u8] = b"--combine=xor";

/// The two words that are the option of an uninitialised latch.
const UNINIT_0: &[u8] = b"--uninit=0";

const UNINIT_1: &[u8] = b"--uninit=1";

/// The place of a word's first `=`.
fn equals_sign(word: &[u8]) -> Option<usize>
    ensures { result ≡ position (λ byte. byte == 61) word.now }
{
    word.iter().position(|byte| *byte == b'=')
}

/// The name of an option word.
#[tactic(auto, using(crate::proofs::OptionLemmas::first_found, crate::proofs::OptionLemmas::first_missing))]
fn name_of(word: &[u8]) -> &[u8]
    ensures { result.now ≡ name_of word.now }
{
    match equals_sign(word) {
        Some(place) => &word[..place],
        None => word,
    }
}

/// The number of an option word.
#[tactic(auto, using(crate::proofs::OptionLemmas::first_found, crate::proofs::OptionLemmas::first_missing))]
fn number_in(word: &[u8]) -> Option<u64>
    ensures { result ≡ number_in word.now }
{
    match equals_sign(word) {
        Some(place) => number(&word[place + 1..]).ok(),
        None => None,
    }
}

/// The bytes of a word.
fn bytes_of(word: &String) -> &[u8]
    ensures { result.now ≡ string_bytes word.now }
{
    word.as_str().as_bytes()
}

/// Whether the word begins as an option does.
fn is_option(word: &String) -> bool
    ensures { result ≡ is_option (string_bytes word.now) }
{
    bytes_of(word).starts_with(b"--")
}

/// Whether the word is of the option of this name.
fn has_name(word: &String, name: &[u8]) -> bool
    ensures { result ≡ has_name name.now (string_bytes word.now) }
{
    name_of(bytes_of(word)) == name
}

/// Whether the name is one of an option that this command has besides those of all.
fn is_own(verb: Verb, name: &[u8]) -> bool
    ensures { result ≡ list_any (bytes_eq name.now) (own_names verb) }
{
    match verb {
        Verb::Over(Task::Eval { .. }) => name == UNINIT || name == WIDE,
        Verb::Over(
            Task::Answer {
                kind: FileKind::Map,
                ..
            },
        ) => name == COMBINE || name == EARLY,
        Verb::Over(
            Task::Answer {
                kind: FileKind::Dump,
                ..
            },
        ) => name == COMBINE,
        _ => false,
    }
}

/// Whether the name is one of an option without a value.
fn is_flag(name: &[u8]) -> bool
    ensures { result ≡ list_any (bytes_eq name.now) flag_names }
{
    name == STATS || name == WIDE || name == EARLY
}

/// Whether the name is one of an option of this command.
fn is_known(verb: Verb, name: &[u8]) -> bool
    ensures { result ≡ knows verb name.now }
{
    is_own(verb, name) || name == BLOCK || name == FRAMES || name == BLOCKS || name == STATS
}

/// The combiner that a word names.
fn combine_of(word: &[u8]) -> Option<Combine>
    ensures { result ≡ combine_of word.now }
{
    if word == COMBINE_SUM {
        Some(Combine::Sum)
    } else if word == COMBINE_MAX {
        Some(Combine::Max)
    } else if word == COMBINE_MIN {
        Some(Combine::Min)
    } else if word == COMBINE_XOR {
        Some(Combine::Xor)
    } else {
        None
    }
}

/// Whether the word of an option has the value that it wants.
fn has_value(word: &[u8]) -> bool
    ensures { result ≡ has_value word.now }
{
    if is_flag(name_of(word)) {
        word == name_of(word)
    } else if name_of(word) == UNINIT {
        word == UNINIT_0 || word == UNINIT_1
    } else if name_of(word) == COMBINE {
        combine_of(word).is_some()
    } else {
        number_in(word).is_some()
    }
}

/// The place, from 0, of the first word that is of the option of this name.
fn place_of(options: &[String], name: &[u8]) -> Option<usize>
    ensures { result ≡ position (λ word. has_name name.now (string_bytes word)) options.now }
{
    options.iter().position(|word| has_name(word, name))
}

/// The place, from 0, of the first word that is no option.
fn options_end(words: &[String]) -> Option<usize>
    ensures { result ≡ position (λ word. not (is_option (string_bytes word))) words.now }
{
    words.iter().position(|word| !is_option(word))
}

/// Whether the option of this name stands among the option words.
#[tactic(auto, using(crate::proofs::OptionLemmas::position_map))]
pub fn has_option(options: &[String], name: &[u8]) -> bool
    ensures { result ≡ has_option name.now (texts_of options.now) }
{
    place_of(options, name).is_some()
}

/// The number that the option of this name gives, or the default.
#[tactic(auto, using(crate::proofs::OptionLemmas::position_map, crate::proofs::RefusalLaws::number_found))]
pub fn number_or(options: &[String], name: &[u8], default: u64) -> u64
    ensures { result ≡ number_or name.now (texts_of options.now) default }
{
    match place_of(options, name) {
        Some(place) => number_in(bytes_of(&options[place])).unwrap_or(default),
        None => default,
    }
}

/// The combiner that the options say, or else the sum.
#[tactic(auto, using(crate::proofs::RefusalLaws::combine_found, crate::proofs::RefusalLaws::combine_missing))]
pub fn combine_with(options: &[String]) -> Combine
    ensures { result ≡ combine_with (texts_of options.now) }
{
    match place_of(options, COMBINE) {
        Some(place) => combine_of(bytes_of(&options[place])).unwrap_or(Combine::Sum),
        None => Combine::Sum,
    }
}

/// The number of the word of the option of this name, where it stands among the option words.
#[tactic(auto, using(crate::proofs::OptionLemmas::position_map, crate::proofs::RefusalLaws::word_missing))]
pub fn word_of(options: &[String], name: &[u8]) -> u64
    ensures { result ≡ word_of name.now (texts_of options.now) }
{
    match place_of(options, name) {
        Some(place) => place as u64 + 1,
        None => options.len() as u64 + 1,
    }
}

/// What is wrong with an option word after these earlier ones.
fn option_fault(verb: Verb, earlier: &[String], word: &[u8]) -> Option<UsageKind>
    ensures { result ≡ option_fault verb (texts_of earlier.now) word.now }
{
    let name = name_of(word);
    if !is_known(verb, name) {
        return Some(UsageKind::UnknownOption);
    }
    if has_option(earlier, name) {
        return Some(UsageKind::RepeatedOption);
    }
    if !has_value(word) {
        return Some(UsageKind::BadValue);
    }
    None
}

/// The option words among the words after a command.
#[tactic(auto, using(crate::proofs::OptionLemmas::first_found_map, crate::proofs::OptionLemmas::first_missing_map))]
pub fn option_words(words: &[String]) -> &[String]
    ensures { texts_of result.now ≡ option_words (texts_of words.now) }
{
    match options_end(words) {
        Some(place) => &words[..place],
        None => words,
    }
}

/// Tests the option words of this command, each in its turn.
pub fn test_options(verb: Verb, options: &[String]) -> Result<(), Usage>
    ensures { result_err result ≡ options_refusal verb [] (texts_of options.now) }
{
    for (place, word) in options.iter().enumerate() {
        if let Some(kind) = option_fault(verb, &options[..place], bytes_of(word)) {
            return Err(Usage {
                kind,
                word: place as u64 + 1,
            });
        }
    }
    Ok(())
}
