//! The snapshot, its header and its entities, written.

use crate::encoding::held::Held;
use crate::encoding::{Encode, put_unknown};
use feed_values::{Entity, FeedHeader, FeedMessage};
use std::alloc::{AllocError, Global};

impl Encode for FeedMessage {
    fn put(&self, alloc: Global, out: &mut Vec<u8>) -> Result<(), AllocError> {
        self.header.put_in(alloc, out, 1)?;
        self.entity.put_in(alloc, out, 2)?;
        put_unknown::<FeedMessage>(out, &self.unknown)
    }
}

impl Encode for FeedHeader {
    fn put(&self, alloc: Global, out: &mut Vec<u8>) -> Result<(), AllocError> {
        self.gtfs_realtime_version.put_in(alloc, out, 1)?;
        self.incrementality.put_in(alloc, out, 2)?;
        self.timestamp.put_in(alloc, out, 3)?;
        self.feed_version.put_in(alloc, out, 4)?;
        put_unknown::<FeedHeader>(out, &self.unknown)
    }
}

impl Encode for Entity {
    fn put(&self, alloc: Global, out: &mut Vec<u8>) -> Result<(), AllocError> {
        self.id.put_in(alloc, out, 1)?;
        self.is_deleted.put_in(alloc, out, 2)?;
        self.trip_update.put_in(alloc, out, 3)?;
        self.vehicle.put_in(alloc, out, 4)?;
        self.alert.put_in(alloc, out, 5)?;
        put_unknown::<Entity>(out, &self.unknown)
    }
}
