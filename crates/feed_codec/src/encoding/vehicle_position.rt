//! Vehicle positions and what they hold, written.
ghost use Rattle.std.specs.Prelude.{◌≡◌, ◌++◌, OnOk};
ghost use Rattle.feed_values.specs.Messages.{vehicle_position};
ghost use Rattle.feed_values.specs.Views.{vehicle_position_value};
ghost use Rattle.feed_values.specs.WellFormed.{SlotsFit};
ghost use Rattle.feed_values.specs.Canonical.{canonical};
ghost use Rattle.feed_codec.specs.Encoding.{position_from_timestamp, held_from_timestamp};

use crate::encoding::held::Held;
use crate::encoding::scalars::{Bits32, Bits64};
use crate::encoding::{Encode, put_unknown};
use feed_values::{Position, VehiclePosition};
use std::alloc::{AllocError, Global};

impl Encode for VehiclePosition {
    fn put(&self, alloc: Global, out: &mut Vec<u8>) -> Result<(), AllocError> {
        self.trip.put_in(alloc, out, 1)?;
        self.position.put_in(alloc, out, 2)?;
        self.current_stop_sequence.put_in(alloc, out, 3)?;
        self.current_status.put_in(alloc, out, 4)?;
        put_from_timestamp(alloc, out, self)
    }
}

/// Appends the slots from `timestamp` on.
fn put_from_timestamp(
    alloc: Global,
    out: &mut Vec<u8>,
    position: &VehiclePosition,
) -> Result<(), AllocError>
    requires { SlotsFit vehicle_position position_from_timestamp (held_from_timestamp (vehicle_position_value position.now)) }
    ensures { OnOk result (out.new.items
        ≡ out.old.items ++ canonical position_from_timestamp (held_from_timestamp (vehicle_position_value position.now))) }
{
    position.timestamp.put_in(alloc, out, 5)?;
    position.congestion_level.put_in(alloc, out, 6)?;
    position.stop_id.put_in(alloc, out, 7)?;
    position.vehicle.put_in(alloc, out, 8)?;
    position.occupancy_status.put_in(alloc, out, 9)?;
    put_unknown::<VehiclePosition>(out, &position.unknown)
}

impl Encode for Position {
    fn put(&self, alloc: Global, out: &mut Vec<u8>) -> Result<(), AllocError> {
        Bits32(Some(self.latitude)).put_in(alloc, out, 1)?;
        Bits32(Some(self.longitude)).put_in(alloc, out, 2)?;
        Bits32(self.bearing).put_in(alloc, out, 3)?;
        Bits64(self.odometer).put_in(alloc, out, 4)?;
        Bits32(self.speed).put_in(alloc, out, 5)?;
        put_unknown::<Position>(out, &self.unknown)
    }
}
