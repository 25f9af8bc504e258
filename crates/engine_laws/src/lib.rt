//! What stands over a history of snapshots, proved once for every engine: which findings there are and in which order, since
//! when they stand, what one more snapshot opens, closes and concerns, and that all of it may be computed header by header
//! and entity by entity.
//!
//! `specs/Standings.antt` says which history an engine stands for, and `specs/HeldFeeds.antt` what it owes for one more
//! snapshot: equations on what it holds of each feed, and nothing about histories. The functions of `laws` say that this is
//! enough. None of them does anything.
#![tactic(auto)]

mod laws;

pub use laws::{
    counts_are_held, data_are_joined, delta_is_computed, findings_are_parts, findings_rise,
    first_is_new, headers_stay, list_goes_on, list_is_computed, next_changes, next_is_computed,
    next_is_own, next_matches, next_numbers, next_stands, none_is_lost, nothing_stands,
    pairing_keeps, pairing_stays, parts_close, parts_open, parts_renew, peaking_stays, peaks_raise,
    rows_agree, rows_rise, rows_stay, since_goes_on, since_starts, walk_closes, walk_opens,
    walk_renews,
};
