//! Properties that an update gives anew, written.

use crate::encoding::held::Held;
use crate::encoding::{Encode, put_unknown};
use feed_values::{StopTimeProperties, TripProperties};
use std::alloc::{AllocError, Global};

impl Encode for TripProperties {
    fn put(&self, alloc: Global, out: &mut Vec<u8>) -> Result<(), AllocError> {
        self.trip_id.put_in(alloc, out, 1)?;
        self.start_date.put_in(alloc, out, 2)?;
        self.start_time.put_in(alloc, out, 3)?;
        put_unknown::<TripProperties>(out, &self.unknown)
    }
}

impl Encode for StopTimeProperties {
    fn put(&self, alloc: Global, out: &mut Vec<u8>) -> Result<(), AllocError> {
        self.assigned_stop_id.put_in(alloc, out, 1)?;
        put_unknown::<StopTimeProperties>(out, &self.unknown)
    }
}
