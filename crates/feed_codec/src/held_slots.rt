//! What is there of the required slots of an entity, by one walk along its fields.
ghost use Rattle.std.specs.Prelude.{◌≡◌, ◌∷◌, [], ◌||◌, true, false};
ghost use Rattle.rt_wire.specs.Placed.{placed_field};
ghost use Rattle.feed_values.specs.Meaning.{fields};
ghost use Rattle.feed_codec.specs.Paths as paths;
ghost use Rattle.feed_codec.specs.Missing.{is_there, has_coordinate, has_blank_in, is_blank, lacks_text};

use crate::numbers::{
    ALERT, DESCRIPTION_TEXT, HEADER_TEXT, ID, LATITUDE, LONGITUDE, POSITION, TEXT, TRANSLATION,
    TRIP, TRIP_UPDATE, URL, VEHICLE,
};
use crate::paths::{has_payload, is_around_payload, is_fixed32, is_payload};
use crate::payloads::payload_of;
use rt_wire::{Fields, RawField};

/// Whether a payload of slot `number` is there, in a field or before it.
fn payload_after(field: &RawField<'_>, number: u32, before: bool) -> bool
    ensures { result ≡ (before || is_there [] number ((placed_field field.now).field ∷ [])) }
{
    before || is_payload(field, number)
}

/// Whether a trip is there, in a trip update or before it.
fn trip_after(field: &RawField<'_>, before: bool) -> bool
    ensures { result ≡ (before || is_there (3 ∷ []) 1 ((placed_field field.now).field ∷ [])) }
{
    before || is_around_payload(field, TRIP_UPDATE, TRIP)
}

/// Whether a coordinate is there, in a field of a position or before it.
fn coordinate_after(field: &RawField<'_>, number: u32, before: bool) -> bool
    ensures { result ≡ (before || paths.holds [] (paths.is_fixed32 number) ((placed_field field.now).field ∷ [])) }
{
    before || is_fixed32(field, number)
}

/// What is there of a vehicle's position, in all so far together.
#[derive(Clone, Copy)]
pub struct HeldPosition {
    pub given: bool,
    pub latitude: bool,
    pub longitude: bool,
}

impl HeldPosition {
    fn none() -> HeldPosition
        ensures given { result.given ≡ false }
        ensures latitude { result.latitude ≡ false }
        ensures longitude { result.longitude ≡ false }
    {
        HeldPosition {
            given: false,
            latitude: false,
            longitude: false,
        }
    }

    /// With the payload of a position more.
    fn and_in(self, position: &[u8]) -> HeldPosition
        ensures given { result.given ≡ true }
        ensures latitude { result.latitude ≡ (self.latitude || paths.holds [] (paths.is_fixed32 1) (fields position.now)) }
        ensures longitude { result.longitude ≡ (self.longitude || paths.holds [] (paths.is_fixed32 2) (fields position.now)) }
    {
        let mut found = self;
        found.given = true;
        let mut fields = Fields::new(position);
        while let Some(field) = fields.next_fixed32() {
            match field {
                Ok(field) => {
                    found.latitude = coordinate_after(&field, LATITUDE, found.latitude);
                    found.longitude = coordinate_after(&field, LONGITUDE, found.longitude);
                    if found.latitude && found.longitude {
                        return found;
                    }
                }
                Err(_) => return found,
            }
        }
        found
    }

    /// With the payload of a vehicle position more.
    fn and_in_vehicle(self, vehicle: &[u8]) -> HeldPosition
        ensures given { result.given ≡ (self.given || paths.holds [] (paths.is_payload 2) (fields vehicle.now)) }
        ensures latitude { result.latitude ≡ (self.latitude || paths.holds (2 ∷ []) (paths.is_fixed32 1) (fields vehicle.now)) }
        ensures longitude { result.longitude ≡ (self.longitude || paths.holds (2 ∷ []) (paths.is_fixed32 2) (fields vehicle.now)) }
    {
        let mut found = self;
        let mut fields = Fields::new(vehicle);
        while let Some(field) = fields.next() {
            match field {
                Ok(field) => {
                    if let Some(position) = payload_of(&field, POSITION) {
                        found = found.and_in(position);
                        if found.latitude && found.longitude {
                            return found;
                        }
                    }
                }
                Err(_) => return found,
            }
        }
        found
    }

    /// With a field more of the entity.
    fn and_field(self, field: &RawField<'_>) -> HeldPosition
        ensures given { result.given ≡ (self.given || is_there (4 ∷ []) 2 ((placed_field field.now).field ∷ [])) }
        ensures latitude { result.latitude ≡ (self.latitude || has_coordinate 1 ((placed_field field.now).field ∷ [])) }
        ensures longitude { result.longitude ≡ (self.longitude || has_coordinate 2 ((placed_field field.now).field ∷ [])) }
    {
        match payload_of(field, VEHICLE) {
            Some(vehicle) => self.and_in_vehicle(vehicle),
            None => self,
        }
    }
}

/// Whether a field of a translated text is a translation without a text.
fn is_blank_translation(field: &RawField<'_>) -> bool
    ensures { result ≡ paths.is_payload_without 1 1 (placed_field field.now).field }
{
    match payload_of(field, TRANSLATION) {
        Some(translation) => !has_payload(translation, TEXT),
        None => false,
    }
}

/// Whether a translated text has a translation without a text.
fn has_blank_translation(text: &[u8]) -> bool
    ensures { result ≡ paths.holds [] (paths.is_payload_without 1 1) (fields text.now) }
{
    let mut fields = Fields::new(text);
    while let Some(field) = fields.next() {
        match field {
            Ok(field) => {
                if is_blank_translation(&field) {
                    return true;
                }
            }
            Err(_) => return false,
        }
    }
    false
}

/// Whether a field of an alert is such a translated text in slot `slot`.
fn is_blank_in(field: &RawField<'_>, slot: u32) -> bool
    ensures { result ≡ has_blank_in slot ((placed_field field.now).field ∷ []) }
{
    match payload_of(field, slot) {
        Some(text) => has_blank_translation(text),
        None => false,
    }
}

/// Whether a field of an alert is such a translated text.
fn is_blank_text(field: &RawField<'_>) -> bool
    ensures { result ≡ is_blank ((placed_field field.now).field ∷ []) }
{
    is_blank_in(field, URL)
        || is_blank_in(field, HEADER_TEXT)
        || is_blank_in(field, DESCRIPTION_TEXT)
}

/// Whether an alert has such a translated text.
fn has_blank_text(alert: &[u8]) -> bool
    ensures { result ≡ is_blank (fields alert.now) }
{
    let mut fields = Fields::new(alert);
    while let Some(field) = fields.next() {
        match field {
            Ok(field) => {
                if is_blank_text(&field) {
                    return true;
                }
            }
            Err(_) => return false,
        }
    }
    false
}

/// Whether such a translated text is there, in an alert or before it.
fn blank_text_after(field: &RawField<'_>, before: bool) -> bool
    ensures { result ≡ (before || lacks_text ((placed_field field.now).field ∷ [])) }
{
    match payload_of(field, ALERT) {
        Some(alert) => before || has_blank_text(alert),
        None => before,
    }
}

/// What is there in an entity: its id, a trip update and a trip in it, a position and its coordinates, and a translation
/// without a text.
#[derive(Clone, Copy)]
pub struct HeldSlots {
    pub id: bool,
    pub update: bool,
    pub trip: bool,
    pub position: HeldPosition,
    pub blank_text: bool,
}

impl HeldSlots {
    ghost use Rattle.feed_codec.specs.Missing.{AreHeld};

    /// With a field more of the entity.
    fn and_field(self, field: &RawField<'_>) -> HeldSlots
        ensures id { result.id ≡ (self.id || is_there [] 1 ((placed_field field.now).field ∷ [])) }
        ensures update { result.update ≡ (self.update || is_there [] 3 ((placed_field field.now).field ∷ [])) }
        ensures trip { result.trip ≡ (self.trip || is_there (3 ∷ []) 1 ((placed_field field.now).field ∷ [])) }
        ensures position { result.position.given ≡ (self.position.given || is_there (4 ∷ []) 2 ((placed_field field.now).field ∷ [])) }
        ensures latitude { result.position.latitude ≡ (self.position.latitude || has_coordinate 1 ((placed_field field.now).field ∷ [])) }
        ensures longitude { result.position.longitude ≡ (self.position.longitude || has_coordinate 2 ((placed_field field.now).field ∷ [])) }
        ensures blank_text { result.blank_text ≡ (self.blank_text || lacks_text ((placed_field field.now).field ∷ [])) }
    {
        HeldSlots {
            id: payload_after(field, ID, self.id),
            update: payload_after(field, TRIP_UPDATE, self.update),
            trip: trip_after(field, self.trip),
            position: self.position.and_field(field),
            blank_text: blank_text_after(field, self.blank_text),
        }
    }

    /// By one walk along the fields of an entity. Behind a fault nothing is read.
    pub fn at(entity: &[u8]) -> HeldSlots
        ensures { AreHeld result (fields entity.now) }
    {
        let mut found = HeldSlots {
            id: false,
            update: false,
            trip: false,
            position: HeldPosition::none(),
            blank_text: false,
        };
        let mut fields = Fields::new(entity);
        while let Some(field) = fields.next() {
            match field {
                Ok(field) => found = found.and_field(&field),
                Err(_) => return found,
            }
        }
        found
    }
}
