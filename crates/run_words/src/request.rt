//! What a command line asks for.

use crate::zone_word::ZoneWord;
use alert_terms::Query;
use feed_values::{Items, Text};

/// What the words of a command line ask for.
#[derive(Debug, Drop)]
pub enum Request {
    /// To check the snapshots in these files, one feed each, on the timetable in the folder.
    ///
    /// `now` is the moment that the snapshots are judged at, as POSIX time in seconds, in place of
    /// the clock's.
    Check {
        folder: Option<Text>,
        now: Option<u64>,
        files: Items<Text>,
    },
    /// To follow the snapshots that the list in this file names, on the timetable in the folder.
    Follow {
        folder: Option<Text>,
        list: Text,
    },
    /// To write the table of stop events of the snapshot in this file, on the timetable in the folder, whose times are those of
    /// the zone's clocks.
    ///
    /// `now` is the moment that decides the service day where a trip states none, as POSIX time in seconds, in place of the
    /// clock's.
    Predict {
        folder: Text,
        zone: ZoneWord,
        now: Option<u64>,
        file: Text,
    },
    /// To write the snapshot in this file as JSON.
    Show {
        file: Text,
    },
    /// To write the snapshot that the JSON in this file says.
    Encode {
        file: Text,
    },
    /// To write the snapshots in these files as one: the union of as many feeds, as its canonical bytes.
    Merge {
        files: Items<Text>,
    },
    /// To make a timetable and the snapshots of two feeds from a number, to follow them and to sum up.
    Trial {
        seed: u64,
    },
    /// To judge each line of the report in this file by itself.
    Verify {
        file: Text,
    },
    /// To tell which alerts of the snapshots in these files, one feed each, are in force for whom is asked for, and when that can
    /// change next.
    ///
    /// `now` is the moment at which they are to be in force, as POSIX time in seconds, in place of the clock's.
    Alerts {
        now: Option<u64>,
        query: Query,
        files: Items<Text>,
    },
}
