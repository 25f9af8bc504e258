//! Alerts and what they hold, written.
ghost use Rattle.std.specs.Prelude.{◌≡◌, ◌++◌, OnOk};
ghost use Rattle.feed_values.specs.Messages.{alert};
ghost use Rattle.feed_values.specs.Views.{alert_value};
ghost use Rattle.feed_values.specs.WellFormed.{SlotsFit};
ghost use Rattle.feed_values.specs.Canonical.{canonical};
ghost use Rattle.feed_codec.specs.Encoding.{alert_from_url, held_from_url};

use crate::encoding::held::Held;
use crate::encoding::{Encode, put_unknown};
use feed_values::{Alert, EntitySelector, TimeRange};
use std::alloc::{AllocError, Global};

impl Encode for Alert {
    fn put(&self, alloc: Global, out: &mut Vec<u8>) -> Result<(), AllocError> {
        self.active_period.put_in(alloc, out, 1)?;
        self.informed_entity.put_in(alloc, out, 5)?;
        self.cause.put_in(alloc, out, 6)?;
        self.effect.put_in(alloc, out, 7)?;
        put_from_url(alloc, out, self)
    }
}

/// Appends the slots from `url` on.
fn put_from_url(alloc: Global, out: &mut Vec<u8>, message: &Alert) -> Result<(), AllocError>
    requires { SlotsFit alert alert_from_url (held_from_url (alert_value message.now)) }
    ensures { OnOk result (out.new.items ≡ out.old.items ++ canonical alert_from_url (held_from_url (alert_value message.now))) }
{
    message.url.put_in(alloc, out, 8)?;
    message.header_text.put_in(alloc, out, 10)?;
    message.description_text.put_in(alloc, out, 11)?;
    put_unknown::<Alert>(out, &message.unknown)
}

impl Encode for TimeRange {
    fn put(&self, alloc: Global, out: &mut Vec<u8>) -> Result<(), AllocError> {
        self.start.put_in(alloc, out, 1)?;
        self.end.put_in(alloc, out, 2)?;
        put_unknown::<TimeRange>(out, &self.unknown)
    }
}

impl Encode for EntitySelector {
    fn put(&self, alloc: Global, out: &mut Vec<u8>) -> Result<(), AllocError> {
        self.agency_id.put_in(alloc, out, 1)?;
        self.route_id.put_in(alloc, out, 2)?;
        self.route_type.put_in(alloc, out, 3)?;
        self.trip.put_in(alloc, out, 4)?;
        self.stop_id.put_in(alloc, out, 5)?;
        put_unknown::<EntitySelector>(out, &self.unknown)
    }
}
