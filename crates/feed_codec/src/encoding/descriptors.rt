//! Trip and vehicle descriptors, written.

use crate::encoding::held::Held;
use crate::encoding::{Encode, put_unknown};
use feed_values::{TripDescriptor, VehicleDescriptor};
use std::alloc::{AllocError, Global};

impl Encode for TripDescriptor {
    fn put(&self, alloc: Global, out: &mut Vec<u8>) -> Result<(), AllocError> {
        self.trip_id.put_in(alloc, out, 1)?;
        self.start_time.put_in(alloc, out, 2)?;
        self.start_date.put_in(alloc, out, 3)?;
        self.schedule_relationship.put_in(alloc, out, 4)?;
        self.route_id.put_in(alloc, out, 5)?;
        self.direction_id.put_in(alloc, out, 6)?;
        put_unknown::<TripDescriptor>(out, &self.unknown)
    }
}

impl Encode for VehicleDescriptor {
    fn put(&self, alloc: Global, out: &mut Vec<u8>) -> Result<(), AllocError> {
        self.id.put_in(alloc, out, 1)?;
        self.label.put_in(alloc, out, 2)?;
        self.license_plate.put_in(alloc, out, 3)?;
        put_unknown::<VehicleDescriptor>(out, &self.unknown)
    }
}
