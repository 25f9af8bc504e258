//! The columns of a list.
ghost use Rattle.std.specs.Prelude.{◌≡◌};
ghost use Rattle.feed_list.specs.Texts.{column_name};

/// A column of a list, in the order in which they stand.
#[derive(Clone, Copy, Debug, PartialEq, Eq)]
pub enum Column {
    /// The number of the feed, or the word of a timetable.
    Feed,
    /// The moment at which the snapshot came. A timetable has none.
    Moment,
    /// The path of the snapshot's file, or of the timetable's folder.
    Path,
}

impl Column {
    pub fn name(self) -> &'static str
        ensures { result.now ≡ column_name self }
    {
        match self {
            Column::Feed => "feed",
            Column::Moment => "moment",
            Column::Path => "path",
        }
    }
}
