//! The numbers of the slots that are asked for by name. (GTFS Realtime Reference 2.0, "Element Index".)

// Of a snapshot.
pub const HEADER: u32 = 1;

pub const ENTITY: u32 = 2;

// Of a header.
pub const VERSION: u32 = 1;

pub const INCREMENTALITY: u32 = 2;

// Of an entity.
pub const ID: u32 = 1;

pub const TRIP_UPDATE: u32 = 3;

pub const VEHICLE: u32 = 4;

pub const ALERT: u32 = 5;

/// Of a trip update.
pub const TRIP: u32 = 1;

/// Of a vehicle position.
pub const POSITION: u32 = 2;

// Of a position.
pub const LATITUDE: u32 = 1;

pub const LONGITUDE: u32 = 2;

// Of an alert: its translated texts.
pub const URL: u32 = 8;

pub const HEADER_TEXT: u32 = 10;

pub const DESCRIPTION_TEXT: u32 = 11;

/// Of a translated text.
pub const TRANSLATION: u32 = 1;

/// Of a translation.
pub const TEXT: u32 = 1;
