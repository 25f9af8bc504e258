//! The words of a command line.
ghost use Rattle.std.specs.Prelude.{◌≡◌, IfOk, ◌∷◌, map, option_map, string_bytes};
ghost use Rattle.run_words.specs.Words.{alerts_asked, alerts_of, asked_of, check_of, files_in, follow_asked, follow_of, predict_of, predicted, one_file, options_of, file_of, merge_of, trial_of, request};
ghost use Rattle.run_words.specs.declared.request.Request.TheVariants.{Show, Encode, Verify};

use crate::command::Command;
use crate::options::{Options, path_of};
use crate::request::Request;
use crate::zone_word::ZoneWord;
use alert_terms::Query;
use feed_list::{is_path, number_of};
use feed_values::{Items, Text};
use std::alloc::{AllocError, Global};

/// The most files that `check`, `merge` and `alerts` take.
const FILE_LIMIT: usize = 16;

/// The request of the words after the program's name, or none where they give no request.
///
/// These are `check` with 1 to 16 files, and before them `--timetable` with a folder and `--now` with a moment;
/// `follow` with `--list` and a file, and `--timetable` with a folder; `predict` with one file, and before it `--timetable`
/// with a folder, one of `--zone-rule` with a text and `--zone-file` with a file, and `--now` with a moment; `show` and
/// `encode`, each with one file; `trial` with a number; `verify` with one file; `merge` with 1 to 16 files; and `alerts` with 1 to 16
/// files, and before them one of `--agency`, `--route`, `--trip` and `--stop` with an id, and `--now` with a moment. Options stand
/// before the files in any order, each at most once. A number has 1 to 20 digits, and its value fits 64 bits. No file and no value of
/// an option is empty or begins with a dash.
pub fn words_of(alloc: Global, words: &[String]) -> Result<Option<Request>, AllocError>
    ensures { IfOk result (λ found. found ≡ request (map string_bytes words.now)) }
{
    match words {
        [command, words @ ..] => request_of(alloc, command.as_str(), words),
        _ => Ok(None),
    }
}

// The request of a command and the words after it.
fn request_of(alloc: Global, command: &str, words: &[String]) -> Result<Option<Request>, AllocError>
    ensures { IfOk result (λ found. found ≡ request (command.now ∷ map string_bytes words.now)) }
{
    if command == "check" {
        options_of(alloc, Command::Check, Options::none(), words)
    } else if command == "follow" {
        options_of(alloc, Command::Follow, Options::none(), words)
    } else if command == "predict" {
        options_of(alloc, Command::Predict, Options::none(), words)
    } else if command == "show" {
        Ok(file_of(alloc, words)?.map(|file| Request::Show { file }))
    } else if command == "encode" {
        Ok(file_of(alloc, words)?.map(|file| Request::Encode { file }))
    } else if command == "merge" {
        merge_of(alloc, words)
    } else if command == "trial" {
        Ok(trial_of(words))
    } else if command == "verify" {
        Ok(file_of(alloc, words)?.map(|file| Request::Verify { file }))
    } else if command == "alerts" {
        options_of(alloc, Command::Alerts, Options::none(), words)
    } else {
        Ok(None)
    }
}

// The file of the words after a command that takes one.
fn file_of(alloc: Global, words: &[String]) -> Result<Option<Text>, AllocError>
    ensures show { IfOk result (λ file. option_map Show file ≡ file_of Show (map string_bytes words.now)) }
    ensures encode { IfOk result (λ file. option_map Encode file ≡ file_of Encode (map string_bytes words.now)) }
    ensures verify { IfOk result (λ file. option_map Verify file ≡ file_of Verify (map string_bytes words.now)) }
    ensures file { IfOk result (λ file. file ≡ one_file (map string_bytes words.now)) }
{
    match words {
        [file] => path_of(alloc, file.as_str()),
        _ => Ok(None),
    }
}

// The request of the words after `merge`.
fn merge_of(alloc: Global, words: &[String]) -> Result<Option<Request>, AllocError>
    ensures { IfOk result (λ found. found ≡ merge_of (map string_bytes words.now)) }
{
    let Some(files) = files_of(alloc, words)? else {
        return Ok(None);
    };
    Ok(Some(Request::Merge { files }))
}

// The request of the words after `trial`.
fn trial_of(words: &[String]) -> Option<Request>
    ensures { result ≡ trial_of (map string_bytes words.now) }
{
    match words {
        [word] => Some(Request::Trial {
            seed: number_of(word.as_str())?,
        }),
        _ => None,
    }
}

// The files of words that are 1 to 16 files.
fn files_of(alloc: Global, words: &[String]) -> Result<Option<Items<Text>>, AllocError>
    ensures { IfOk result (λ files. files ≡ files_in (map string_bytes words.now)) }
{
    if words.is_empty() || words.len() > FILE_LIMIT {
        return Ok(None);
    }
    let mut files = Items::new(alloc);
    for word in words {
        let Some(file) = path_of(alloc, word.as_str())? else {
            return Ok(None);
        };
        files.push(file)?;
    }
    Ok(Some(files))
}

// The request of a command with these options and the words behind them, of which the first may be further options.
fn options_of(
    alloc: Global,
    command: Command,
    options: Options,
    words: &[String],
) -> Result<Option<Request>, AllocError>
    ensures { IfOk result (λ found. found ≡ options_of command options (map string_bytes words.now)) }
{
    match words {
        [name, value, rest @ ..] => {
            if is_path(name.as_str()) {
                return asked_of(alloc, command, options, words);
            }
            match options.with(alloc, name.as_str(), value.as_str())? {
                Some(options) => options_of(alloc, command, options, rest),
                None => Ok(None),
            }
        }
        _ => asked_of(alloc, command, options, words),
    }
}

// The request of a command with these options and the words that are none.
fn asked_of(
    alloc: Global,
    command: Command,
    options: Options,
    files: &[String],
) -> Result<Option<Request>, AllocError>
    ensures { IfOk result (λ found. found ≡ asked_of command options (map string_bytes files.now)) }
{
    match command {
        Command::Check => check_of(alloc, options, files),
        Command::Follow => Ok(follow_of(options, files)),
        Command::Predict => predict_of(alloc, options, files),
        Command::Alerts => alerts_of(alloc, options, files),
    }
}

fn check_of(
    alloc: Global,
    options: Options,
    files: &[String],
) -> Result<Option<Request>, AllocError>
    ensures { IfOk result (λ found. found ≡ check_of options (map string_bytes files.now)) }
{
    if options.list.is_some() || options.zone.is_some() || options.query.is_some() {
        return Ok(None);
    }
    let Some(files) = files_of(alloc, files)? else {
        return Ok(None);
    };
    Ok(Some(Request::Check {
        folder: options.folder,
        now: options.moment,
        files,
    }))
}

fn follow_of(options: Options, files: &[String]) -> Option<Request>
    ensures { result ≡ follow_of options (map string_bytes files.now) }
{
    match files {
        [] => follow_asked(options),
        _ => None,
    }
}

// The request of `follow` with these options, of which it wants a list.
fn follow_asked(options: Options) -> Option<Request>
    ensures { result ≡ follow_asked options }
{
    if options.moment.is_some() || options.zone.is_some() || options.query.is_some() {
        return None;
    }
    let list = options.list?;
    Some(Request::Follow {
        folder: options.folder,
        list,
    })
}

fn predict_of(
    alloc: Global,
    options: Options,
    files: &[String],
) -> Result<Option<Request>, AllocError>
    ensures { IfOk result (λ found. found ≡ predict_of options (map string_bytes files.now)) }
{
    if options.list.is_some() || options.query.is_some() {
        return Ok(None);
    }
    let Some(file) = file_of(alloc, files)? else {
        return Ok(None);
    };
    Ok(predicted(options.folder, options.zone, options.moment, file))
}

// The request of `predict` with these options, of which it wants a folder and a zone.
fn predicted(
    folder: Option<Text>,
    zone: Option<ZoneWord>,
    now: Option<u64>,
    file: Text,
) -> Option<Request>
    ensures { result ≡ predicted folder zone now file }
{
    let folder = folder?;
    let zone = zone?;
    Some(Request::Predict {
        folder,
        zone,
        now,
        file,
    })
}

fn alerts_of(
    alloc: Global,
    options: Options,
    files: &[String],
) -> Result<Option<Request>, AllocError>
    ensures { IfOk result (λ found. found ≡ alerts_of options (map string_bytes files.now)) }
{
    if options.folder.is_some() || options.list.is_some() || options.zone.is_some() {
        return Ok(None);
    }
    let Some(files) = files_of(alloc, files)? else {
        return Ok(None);
    };
    Ok(alerts_asked(options.moment, options.query, files))
}

// The request of `alerts` with these options, of which it wants one that says for whom.
fn alerts_asked(now: Option<u64>, query: Option<Query>, files: Items<Text>) -> Option<Request>
    ensures { result ≡ alerts_asked now query files }
{
    let query = query?;
    Some(Request::Alerts { now, query, files })
}
