//! The options of a command line.
ghost use Rattle.std.specs.Prelude.{◌≡◌, IfOk};
ghost use Rattle.feed_list.specs.Values.{path_of};
ghost use Rattle.run_words.specs.Words.{no_options, once, with_folder, with_moment, with_list, with_zone, with_query, with_id, with_text, with_option};

use crate::zone_word::ZoneWord;
use alert_terms::Query;
use feed_list::{is_path, number_of};
use feed_values::Text;
use std::alloc::{AllocError, Global};

/// The options that stand before the files, as far as they are given.
#[derive(Debug, Drop)]
pub struct Options {
    /// The timetable's folder.
    pub folder: Option<Text>,
    /// The moment that snapshots are judged at, as POSIX time in seconds.
    pub moment: Option<u64>,
    /// The file of a list of snapshots.
    pub list: Option<Text>,
    /// The zone whose clocks the times of the timetable are those of.
    pub zone: Option<ZoneWord>,
    /// For whom alerts are asked.
    pub query: Option<Query>,
}

impl Options {
    /// None of them.
    pub fn none() -> Options
        ensures { result ≡ no_options }
    {
        Options {
            folder: None,
            moment: None,
            list: None,
            zone: None,
            query: None,
        }
    }

    /// The options with one more and its value, or none where it is no option, was given already, or
    /// has another kind of value.
    pub fn with(self, alloc: Global, name: &str, value: &str) -> Result<Option<Options>, AllocError>
        ensures { IfOk result (λ found. found ≡ with_option self name.now value.now) }
    {
        if name == "--now" {
            return Ok(match number_of(value) {
                Some(moment) => self.with_moment(moment),
                None => None,
            });
        }
        match path_of(alloc, value)? {
            Some(text) => Ok(self.with_text(name, text)),
            None => Ok(None),
        }
    }

    // The options with the one of this name, whose value is a text.
    fn with_text(self, name: &str, text: Text) -> Option<Options>
        ensures { result ≡ with_text self name.now text }
    {
        if name == "--timetable" {
            self.with_folder(text)
        } else if name == "--list" {
            self.with_list(text)
        } else if name == "--zone-rule" {
            self.with_zone(ZoneWord::Rule(text))
        } else if name == "--zone-file" {
            self.with_zone(ZoneWord::File(text))
        } else {
            self.with_id(name, text)
        }
    }

    // The options with the one of this name, whose value is the id of whom alerts are asked for.
    fn with_id(self, name: &str, id: Text) -> Option<Options>
        ensures { result ≡ with_id self name.now id }
    {
        if name == "--agency" {
            self.with_query(Query::Agency(id))
        } else if name == "--route" {
            self.with_query(Query::Route(id))
        } else if name == "--trip" {
            self.with_query(Query::Trip(id))
        } else if name == "--stop" {
            self.with_query(Query::Stop(id))
        } else {
            None
        }
    }

    fn with_folder(self, folder: Text) -> Option<Options>
        ensures { result ≡ with_folder self folder }
    {
        let folder = once(&self.folder, folder);
        match folder {
            None => None,
            Some(_) => Some(Options { folder, ..self }),
        }
    }

    fn with_moment(self, moment: u64) -> Option<Options>
        ensures { result ≡ with_moment self moment }
    {
        let moment = once(&self.moment, moment);
        match moment {
            None => None,
            Some(_) => Some(Options { moment, ..self }),
        }
    }

    fn with_list(self, list: Text) -> Option<Options>
        ensures { result ≡ with_list self list }
    {
        let list = once(&self.list, list)?;
        Some(Options {
            list: Some(list),
            ..self
        })
    }

    fn with_zone(self, zone: ZoneWord) -> Option<Options>
        ensures { result ≡ with_zone self zone }
    {
        let zone = once(&self.zone, zone)?;
        Some(Options {
            zone: Some(zone),
            ..self
        })
    }

    fn with_query(self, query: Query) -> Option<Options>
        ensures { result ≡ with_query self query }
    {
        let query = once(&self.query, query)?;
        Some(Options {
            query: Some(query),
            ..self
        })
    }
}

// The value, unless one was given before.
fn once<T: Drop>(given: &Option<T>, value: T) -> Option<T>
    ensures { result ≡ once given.now value }
{
    if given.is_some() { None } else { Some(value) }
}

/// The text of a word that may name a file: it isn't empty and doesn't begin with a dash.
pub fn path_of(alloc: Global, word: &str) -> Result<Option<Text>, AllocError>
    ensures { IfOk result (λ text. text ≡ path_of word.now) }
{
    if !is_path(word) {
        return Ok(None);
    }
    Ok(Some(Text::of(alloc, word)?))
}
