//! Trip updates and what they hold, written.

use crate::encoding::held::Held;
use crate::encoding::{Encode, put_unknown};
use feed_values::{StopTimeEvent, StopTimeUpdate, TripUpdate};
use std::alloc::{AllocError, Global};

impl Encode for TripUpdate {
    fn put(&self, alloc: Global, out: &mut Vec<u8>) -> Result<(), AllocError> {
        self.trip.put_in(alloc, out, 1)?;
        self.stop_time_update.put_in(alloc, out, 2)?;
        self.vehicle.put_in(alloc, out, 3)?;
        self.timestamp.put_in(alloc, out, 4)?;
        self.delay.put_in(alloc, out, 5)?;
        self.trip_properties.put_in(alloc, out, 6)?;
        put_unknown::<TripUpdate>(out, &self.unknown)
    }
}

impl Encode for StopTimeUpdate {
    fn put(&self, alloc: Global, out: &mut Vec<u8>) -> Result<(), AllocError> {
        self.stop_sequence.put_in(alloc, out, 1)?;
        self.arrival.put_in(alloc, out, 2)?;
        self.departure.put_in(alloc, out, 3)?;
        self.stop_id.put_in(alloc, out, 4)?;
        self.schedule_relationship.put_in(alloc, out, 5)?;
        self.stop_time_properties.put_in(alloc, out, 6)?;
        put_unknown::<StopTimeUpdate>(out, &self.unknown)
    }
}

impl Encode for StopTimeEvent {
    fn put(&self, alloc: Global, out: &mut Vec<u8>) -> Result<(), AllocError> {
        self.delay.put_in(alloc, out, 1)?;
        self.time.put_in(alloc, out, 2)?;
        self.uncertainty.put_in(alloc, out, 3)?;
        put_unknown::<StopTimeEvent>(out, &self.unknown)
    }
}
