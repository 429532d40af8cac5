//! What the words of a run ask for.
ghost use Rattle.std.specs.Prelude.{◌≡◌, ◌≢◌, ◌∷◌, [], map, string_bytes, codes, IfSome, MatchOption};
ghost use Rattle.cfb_tool.specs.declared.asking.Asked.{Asked as TheAsked};
ghost use Rattle.cfb_tool.specs.Asking.{TakesOptions, words_for};

use crate::word::{Change, Word, change_by, word_by};
use cfb_format::version::Version;
use std::alloc::Allocator as Heap;

/// What a run of the program is asked for. The first text is the path of a file of the system, and
/// an option stands right behind the word.
#[derive(Clone, Copy, Debug, PartialEq, Eq)]
pub enum Asked<'a> {
    /// `create 3 FILE`, `create 4 FILE`: a new empty file of this version.
    Create(Version, &'a str),
    /// `ls FILE`: a line for each object.
    ListAll(&'a str),
    /// `ls FILE PATH`: a line for each object from the one at this path on.
    ListAt(&'a str, &'a str),
    /// `ls -l FILE`: all fields of each object.
    DetailsAll(&'a str),
    /// `ls -l FILE PATH`: all fields of each object from the one at this path on.
    DetailsAt(&'a str, &'a str),
    /// `tree FILE`: the objects as a tree.
    TreeAll(&'a str),
    /// `tree FILE PATH`: the same from the object at this path on.
    TreeAt(&'a str, &'a str),
    /// `info FILE`: a report on the file, and why it is not sound.
    Info(&'a str),
    /// `map FILE`: which sectors belong to what.
    Map(&'a str),
    /// `cat FILE PATH`: the bytes of the stream at this path.
    Cat(&'a str, &'a str),
    /// `dump FILE`: lines of `run` that make the file's tree.
    Dump(&'a str),
    /// `put FILE PATH`: a stream at this path, with the bytes of standard input.
    Put(&'a str, &'a str),
    /// `put FILE PATH FROM`: the same with the bytes of a file of the system.
    PutFrom(&'a str, &'a str, &'a str),
    /// `check FILE`: whether the file is sound.
    Check(&'a str),
    /// `check FILE strict`: the same, and what does no harm is refused too.
    CheckStrict(&'a str),
    /// `extract FILE DIR`: all streams as files of a new folder.
    ExtractAll(&'a str, &'a str),
    /// `extract FILE PATH DIR`: the same of the object at this path.
    ExtractAt(&'a str, &'a str, &'a str),
    /// `compact FILE NEW`: a copy in which no sector is free.
    Compact(&'a str, &'a str),
    /// `salvage FILE NEW`: a new file with what can be read of this one.
    Salvage(&'a str, &'a str),
    /// `run FILE`: the commands on standard input, one a line.
    Run(&'a str),
    /// `run -e FILE`: the same, and each refusal is explained.
    RunExplained(&'a str),
    /// `WORD FILE PATH`: one change.
    OneChange(Change, &'a str, &'a str),
    /// `WORD FILE PATH ARG`: the same with what it wants.
    OneChangeBy(Change, &'a str, &'a str, &'a str),
    /// `help`: what the words are.
    Help,
    /// `--help`: the same.
    LongHelp,
    /// `-h`: the same.
    ShortHelp,
    /// `help WORD`: what this word does.
    HelpOn(Word),
    /// `WORD --help`: the same.
    HelpBehind(Word),
    /// `--version`: which program this is.
    Version,
}

/// What these words ask for. None where they are wrong. An option is not taken for a file's path.
pub fn asked_by<A: Heap>(words: &[String<A>]) -> Option<Asked<'_>>
    ensures words { MatchOption result
        ((a : TheAsked) → words_for a ≡ map (λ word. string_bytes word) words.now → ⊥)
        (λ a. words_for a ≡ map (λ word. string_bytes word) words.now) }
    ensures options { IfSome result TakesOptions }
{
    match words {
        [call] => asked_alone(call),
        [call, first] => asked_of_one(call, first),
        [call, first, second] => asked_of_two(call, first, second),
        [call, first, second, third] => asked_of_three(call, first, second, third),
        _ => None,
    }
}

/// What a word asks for alone.
fn asked_alone<'a>(call: &str) -> Option<Asked<'a>>
    ensures words { MatchOption result
        ((a : TheAsked) → words_for a ≡ call.now ∷ [] → ⊥)
        (λ a. words_for a ≡ call.now ∷ []) }
    ensures options { IfSome result TakesOptions }
{
    match call {
        "help" => Some(Asked::Help),
        "--help" => Some(Asked::LongHelp),
        "-h" => Some(Asked::ShortHelp),
        "--version" => Some(Asked::Version),
        _ => None,
    }
}

/// What a word asks for with one behind it.
fn asked_of_one<'a>(call: &str, first: &'a str) -> Option<Asked<'a>>
    ensures words { MatchOption result
        ((a : TheAsked) → words_for a ≡ call.now ∷ first.now ∷ [] → ⊥)
        (λ a. words_for a ≡ call.now ∷ first.now ∷ []) }
    ensures options { IfSome result TakesOptions }
{
    match call {
        "help" => help_on(first),
        _ => match first {
            "--help" => help_behind(call),
            _ => asked_of_file(call, first),
        },
    }
}

/// What `help` asks for with a word behind it.
fn help_on<'a>(word: &str) -> Option<Asked<'a>>
    ensures words { MatchOption result
        ((a : TheAsked) → words_for a ≡ codes "help" ∷ word.now ∷ [] → ⊥)
        (λ a. words_for a ≡ codes "help" ∷ word.now ∷ []) }
    ensures options { IfSome result TakesOptions }
{
    match word_by(word) {
        Some(word) => Some(Asked::HelpOn(word)),
        None => None,
    }
}

/// What a word asks for with `--help` behind it.
fn help_behind<'a>(call: &str) -> Option<Asked<'a>>
    requires { call.now ≢ codes "help" }
    ensures words { MatchOption result
        ((a : TheAsked) → words_for a ≡ call.now ∷ codes "--help" ∷ [] → ⊥)
        (λ a. words_for a ≡ call.now ∷ codes "--help" ∷ []) }
    ensures options { IfSome result TakesOptions }
{
    match word_by(call) {
        Some(word) => Some(Asked::HelpBehind(word)),
        None => None,
    }
}

/// What a word asks for with the path of a file behind it.
fn asked_of_file<'a>(call: &str, file: &'a str) -> Option<Asked<'a>>
    requires help { call.now ≢ codes "help" }
    requires file { file.now ≢ codes "--help" }
    ensures words { MatchOption result
        ((a : TheAsked) → words_for a ≡ call.now ∷ file.now ∷ [] → ⊥)
        (λ a. words_for a ≡ call.now ∷ file.now ∷ []) }
    ensures options { IfSome result TakesOptions }
{
    match call {
        "ls" => Some(Asked::ListAll(file)),
        "tree" => Some(Asked::TreeAll(file)),
        "info" => Some(Asked::Info(file)),
        "map" => Some(Asked::Map(file)),
        "check" => Some(Asked::Check(file)),
        "dump" => Some(Asked::Dump(file)),
        "run" => Some(Asked::Run(file)),
        _ => None,
    }
}

/// What a word asks for with two behind it.
fn asked_of_two<'a>(call: &str, first: &'a str, second: &'a str) -> Option<Asked<'a>>
    ensures words { MatchOption result
        ((a : TheAsked) → words_for a ≡ call.now ∷ first.now ∷ second.now ∷ [] → ⊥)
        (λ a. words_for a ≡ call.now ∷ first.now ∷ second.now ∷ []) }
    ensures options { IfSome result TakesOptions }
{
    match call {
        "create" => asked_of_version(first, second),
        "ls" => asked_of_list(first, second),
        "tree" => Some(Asked::TreeAt(first, second)),
        "cat" => Some(Asked::Cat(first, second)),
        "put" => Some(Asked::Put(first, second)),
        "check" => asked_of_mode(first, second),
        "extract" => Some(Asked::ExtractAll(first, second)),
        "compact" => Some(Asked::Compact(first, second)),
        "salvage" => Some(Asked::Salvage(first, second)),
        "run" => asked_of_option(first, second),
        _ => match change_by(call) {
            Some(change) => Some(Asked::OneChange(change, first, second)),
            None => None,
        },
    }
}

/// What `create` asks for.
fn asked_of_version<'a>(version: &str, file: &'a str) -> Option<Asked<'a>>
    ensures words { MatchOption result
        ((a : TheAsked) → words_for a ≡ codes "create" ∷ version.now ∷ file.now ∷ [] → ⊥)
        (λ a. words_for a ≡ codes "create" ∷ version.now ∷ file.now ∷ []) }
    ensures options { IfSome result TakesOptions }
{
    match version {
        "3" => Some(Asked::Create(Version::V3, file)),
        "4" => Some(Asked::Create(Version::V4, file)),
        _ => None,
    }
}

/// What `ls` asks for with two words behind it.
fn asked_of_list<'a>(first: &'a str, second: &'a str) -> Option<Asked<'a>>
    ensures words { MatchOption result
        ((a : TheAsked) → words_for a ≡ codes "ls" ∷ first.now ∷ second.now ∷ [] → ⊥)
        (λ a. words_for a ≡ codes "ls" ∷ first.now ∷ second.now ∷ []) }
    ensures options { IfSome result TakesOptions }
{
    match first {
        "-l" => Some(Asked::DetailsAll(second)),
        _ => Some(Asked::ListAt(first, second)),
    }
}

/// What `check` asks for with a word behind the file.
fn asked_of_mode<'a>(file: &'a str, mode: &str) -> Option<Asked<'a>>
    ensures words { MatchOption result
        ((a : TheAsked) → words_for a ≡ codes "check" ∷ file.now ∷ mode.now ∷ [] → ⊥)
        (λ a. words_for a ≡ codes "check" ∷ file.now ∷ mode.now ∷ []) }
    ensures options { IfSome result TakesOptions }
{
    match mode {
        "strict" => Some(Asked::CheckStrict(file)),
        _ => None,
    }
}

/// What `run` asks for with a word in front of the file.
fn asked_of_option<'a>(option: &str, file: &'a str) -> Option<Asked<'a>>
    ensures words { MatchOption result
        ((a : TheAsked) → words_for a ≡ codes "run" ∷ option.now ∷ file.now ∷ [] → ⊥)
        (λ a. words_for a ≡ codes "run" ∷ option.now ∷ file.now ∷ []) }
    ensures options { IfSome result TakesOptions }
{
    match option {
        "-e" => Some(Asked::RunExplained(file)),
        _ => None,
    }
}

/// What a word asks for with three behind it.
fn asked_of_three<'a>(
    call: &str,
    first: &'a str,
    second: &'a str,
    third: &'a str,
) -> Option<Asked<'a>>
    ensures words { MatchOption result
        ((a : TheAsked) → words_for a ≡ call.now ∷ first.now ∷ second.now ∷ third.now ∷ [] → ⊥)
        (λ a. words_for a ≡ call.now ∷ first.now ∷ second.now ∷ third.now ∷ []) }
    ensures options { IfSome result TakesOptions }
{
    match call {
        "ls" => asked_of_details(first, second, third),
        "put" => Some(Asked::PutFrom(first, second, third)),
        "extract" => Some(Asked::ExtractAt(first, second, third)),
        _ => match change_by(call) {
            Some(change) => Some(Asked::OneChangeBy(change, first, second, third)),
            None => None,
        },
    }
}

/// What `ls` asks for with three words behind it.
fn asked_of_details<'a>(option: &str, file: &'a str, path: &'a str) -> Option<Asked<'a>>
    ensures words { MatchOption result
        ((a : TheAsked) → words_for a ≡ codes "ls" ∷ option.now ∷ file.now ∷ path.now ∷ [] → ⊥)
        (λ a. words_for a ≡ codes "ls" ∷ option.now ∷ file.now ∷ path.now ∷ []) }
    ensures options { IfSome result TakesOptions }
{
    match option {
        "-l" => Some(Asked::DetailsAt(file, path)),
        _ => None,
    }
}
