//! The last snapshots of all feeds.
ghost use Rattle.std.specs.Prelude.{◌≡◌, ◌<◌, ◌==◌, ℕ, false, Some, length, map, IfOk, IfSome, OnOk, option_map, option_copied, unwrap_or};
ghost use Rattle.feed_values.specs.Snapshot.{entity_of};
ghost use Rattle.feed_values.specs.Views.{entity_value};
ghost use Rattle.rule_history.specs.Answered.{payload_under};
ghost use Rattle.entity_index.specs.Lists.{list_of, no_lists};
ghost use Rattle.entity_index.specs.Held.{entities_before, held_at, nothing, parts_at, values_of};
ghost use Rattle.entity_index.specs.Changes.{AreIncoming, IsChanges, emptied, replaced, with_part};
ghost use Rattle.entity_index.specs.Rooms.{AreAtPlaces, in_room, room_of};

use crate::comparing::{compared, first_changes};
use crate::incoming::{Changes, Incoming};
use crate::iters::{EntitiesIter, KeysIter, PartsIter};
use crate::parts::Parts;
use crate::renewing::{first_room, next_room, set_in, take_in};
use crate::room::Room;
use feed_stream::Kept;
use feed_values::{Entity, Items};
use rule_table::EntityKey;
use standing_walks::Standing;
use std::alloc::{AllocError, Global};
use std::marker::Model;
use std::mem;

/// The last snapshot of each feed, with each of its entities decoded and what stands at it in four lists. Contracts see it as what is held of
/// each feed, at the place of its number: the bytes of the snapshot, and the lists under the keys of its entities, in the order of keys. The
/// entities themselves are what the bytes mean.
#[derive(Drop)]
pub struct EntityIndex {
    alloc: Global,
    rooms: Vec<Option<Room>>,
}

impl Model for EntityIndex {
    ghost use Rattle.std.specs.Prelude.{List};
    ghost use Rattle.entity_index.specs.Held.{HeldEntities};
    ghost use Rattle.entity_index.specs.Rooms.{in_rooms, AreAtPlaces};

    ghost Value = { List HeldEntities };

    ghost view = { λ s. in_rooms s.rooms.items };

    ghost invariant = { λ s. AreAtPlaces s.rooms.items };
}

/// The room of a feed, if it has one.
fn room_of(rooms: &[Option<Room>], feed: u8) -> Option<&Room>
    ensures { option_copied result ≡ room_of rooms.now feed }
{
    match rooms.get(feed as usize) {
        Some(room) => room.as_ref(),
        None => None,
    }
}

/// Makes a place.
fn make_place(rooms: &mut Vec<Option<Room>>, place: usize) -> Result<(), AllocError>
    ensures same { OnOk result ((g : ℕ) → room_of rooms.new.items g ≡ room_of rooms.old.items g) }
    ensures within { OnOk result (place < length rooms.new.items) }
{
    while rooms.len() <= place {
        rooms.push(None)?;
    }
    Ok(())
}

/// What is held of a feed once a snapshot of it was taken in.
fn renewed_room(
    alloc: Global,
    old: Option<Room>,
    feed: u8,
    kept: Kept,
    incoming: Items<Incoming>,
) -> Result<Room, AllocError>
    requires feed { IfSome old (λ room. room.feed ≡ feed) }
    requires incoming { AreIncoming feed (in_room old).bytes kept incoming }
    ensures feed { IfOk result (λ room. room.feed ≡ feed) }
    ensures held { IfOk result (λ room. in_room (Some room) ≡ replaced feed kept incoming (in_room old)) }
{
    match old {
        None => first_room(alloc, feed, kept, incoming),
        Some(room) => next_room(alloc, room, kept, incoming),
    }
}

/// Takes a snapshot of a feed into its room.
fn put_in_room(
    alloc: Global,
    rooms: &mut Vec<Option<Room>>,
    feed: u8,
    kept: Kept,
    incoming: Items<Incoming>,
) -> Result<(), AllocError>
    requires places { AreAtPlaces rooms.old.items }
    requires incoming { AreIncoming feed (in_room (room_of rooms.old.items feed)).bytes kept incoming }
    ensures places { OnOk result (AreAtPlaces rooms.new.items) }
    ensures here { OnOk result (in_room (room_of rooms.new.items feed) ≡ replaced feed kept incoming (in_room (room_of rooms.old.items feed))) }
    ensures others { OnOk result ((g : ℕ) → (feed == g) ≡ false → room_of rooms.new.items g ≡ room_of rooms.old.items g) }
{
    let place = feed as usize;
    make_place(rooms, place)?;
    let old = mem::replace(&mut rooms[place], None);
    let room = renewed_room(alloc, old, feed, kept, incoming)?;
    rooms[place] = Some(room);
    Ok(())
}

fn take_if_held(room: &mut Option<Room>, alloc: Global, key: &EntityKey) -> Parts
    ensures taken { result ≡ unwrap_or (parts_at key.now (in_room room.old).parts) no_lists }
    ensures held { in_room room.new ≡ emptied key.now (in_room room.old) }
    ensures feed { (f : ℕ) → IfSome room.old (λ room. room.feed ≡ f) → IfSome room.new (λ room. room.feed ≡ f) }
{
    match room {
        Some(room) => take_in(room, alloc, key),
        None => Parts::new(alloc),
    }
}

fn take_in_room(rooms: &mut Vec<Option<Room>>, alloc: Global, key: &EntityKey) -> Parts
    ensures taken { result ≡ unwrap_or (parts_at key.now (in_room (room_of rooms.old.items key.now.feed)).parts) no_lists }
    ensures places { AreAtPlaces rooms.old.items → AreAtPlaces rooms.new.items }
    ensures here { in_room (room_of rooms.new.items key.now.feed) ≡ emptied key.now (in_room (room_of rooms.old.items key.now.feed)) }
    ensures others { (g : ℕ) → (key.now.feed == g) ≡ false → room_of rooms.new.items g ≡ room_of rooms.old.items g }
{
    let place = key.feed as usize;
    if place >= rooms.len() {
        return Parts::new(alloc);
    }
    take_if_held(&mut rooms[place], alloc, key)
}

fn set_if_held(room: &mut Option<Room>, key: &EntityKey, part: u8, list: Items<Standing>)
    requires { part < 4 }
    ensures held { in_room room.new ≡ with_part key.now part list (in_room room.old) }
    ensures feed { (f : ℕ) → IfSome room.old (λ room. room.feed ≡ f) → IfSome room.new (λ room. room.feed ≡ f) }
{
    match room {
        Some(room) => set_in(room, key, part, list),
        None => {}
    }
}

fn set_in_room(rooms: &mut Vec<Option<Room>>, key: &EntityKey, part: u8, list: Items<Standing>)
    requires { part < 4 }
    ensures places { AreAtPlaces rooms.old.items → AreAtPlaces rooms.new.items }
    ensures here { in_room (room_of rooms.new.items key.now.feed) ≡ with_part key.now part list (in_room (room_of rooms.old.items key.now.feed)) }
    ensures others { (g : ℕ) → (key.now.feed == g) ≡ false → room_of rooms.new.items g ≡ room_of rooms.old.items g }
{
    let place = key.feed as usize;
    if place >= rooms.len() {
        return;
    }
    set_if_held(&mut rooms[place], key, part, list);
}

impl EntityIndex {
    /// No snapshot of any feed. It takes no memory.
    pub fn new(alloc: Global) -> EntityIndex
        ensures { (f : ℕ) → held_at result f ≡ nothing }
    {
        EntityIndex {
            alloc,
            rooms: Vec::new(alloc),
        }
    }

    /// What a snapshot of a feed changes among the entities that are held of it. Byte strings are compared where they lie.
    ///
    /// Where 2^32 entities have one id, or there are so many, it answers want of memory.
    pub fn changes(&self, alloc: Global, feed: u8, kept: &Kept) -> Result<Changes, AllocError>
        ensures { IfOk result (IsChanges feed (held_at self.now feed).bytes kept.now) }
    {
        match room_of(&self.rooms, feed) {
            None => first_changes(alloc, feed, kept),
            Some(room) => compared(alloc, room, kept),
        }
    }

    /// Takes a snapshot of a feed in. What comes in is that of `changes`, decoded; all else of the snapshot keeps its entity and lists, and what is
    /// gone is let go. After want of memory the index is gone.
    pub fn replace_feed(
        self,
        feed: u8,
        kept: Kept,
        incoming: Items<Incoming>,
    ) -> Result<EntityIndex, AllocError>
        requires { AreIncoming feed (held_at self feed).bytes kept incoming }
        ensures here { IfOk result (λ index. held_at index feed ≡ replaced feed kept incoming (held_at self feed)) }
        ensures others { IfOk result (λ index. (g : ℕ) → (feed == g) ≡ false → held_at index g ≡ held_at self g) }
    {
        let EntityIndex { alloc, mut rooms } = self;
        put_in_room(alloc, &mut rooms, feed, kept, incoming)?;
        Ok(EntityIndex { alloc, rooms })
    }

    /// Gives up the four lists under a key, where empty ones are then; where nothing is held under it, all stays.
    pub fn take_parts(&mut self, key: &EntityKey) -> Parts
        ensures taken { result ≡ unwrap_or (parts_at key.now (held_at self.old key.now.feed).parts) no_lists }
        ensures here { held_at self.new key.now.feed ≡ emptied key.now (held_at self.old key.now.feed) }
        ensures others { (g : ℕ) → (key.now.feed == g) ≡ false → held_at self.new g ≡ held_at self.old g }
    {
        take_in_room(&mut self.rooms, self.alloc, key)
    }

    /// Puts a list in the place of the one of a number under a key. Where nothing is held under the key, all stays.
    pub fn set_part(&mut self, key: &EntityKey, part: u8, list: Items<Standing>)
        requires { part < 4 }
        ensures here { held_at self.new key.now.feed ≡ with_part key.now part list (held_at self.old key.now.feed) }
        ensures others { (g : ℕ) → (key.now.feed == g) ≡ false → held_at self.new g ≡ held_at self.old g }
    {
        set_in_room(&mut self.rooms, key, part, list);
    }

    /// The last snapshot of a feed.
    pub fn kept_of(&self, feed: u8) -> Option<&Kept>
        ensures { option_copied result ≡ (held_at self.now feed).bytes }
    {
        let room = room_of(&self.rooms, feed)?;
        Some(&room.kept)
    }

    /// The entity under a key, decoded: what its byte string means.
    pub fn entity_of(&self, key: &EntityKey) -> Option<&Entity>
        ensures { option_map entity_value (option_copied result) ≡ option_map entity_of (payload_under key.now (entities_before key.now.feed (held_at self.now key.now.feed).bytes)) }
    {
        let room = room_of(&self.rooms, key.feed)?;
        let seat = room.entries.get(key)?;
        Some(seat.entity())
    }

    /// The four lists under a key.
    pub fn parts_of(&self, key: &EntityKey) -> Option<&Parts>
        ensures { option_copied result ≡ parts_at key.now (held_at self.now key.now.feed).parts }
    {
        let room = room_of(&self.rooms, key.feed)?;
        let seat = room.entries.get(key)?;
        Some(seat.parts())
    }

    /// The list of a number under a key.
    pub fn part_of(&self, key: &EntityKey, part: u8) -> Option<&Items<Standing>>
        requires { part < 4 }
        ensures { option_copied result ≡ option_map (λ lists. list_of lists part) (parts_at key.now (held_at self.now key.now.feed).parts) }
    {
        let parts = self.parts_of(key)?;
        Some(parts.get(part))
    }

    /// The keys of a feed's entities, each once, in their order.
    pub fn keys(&self, feed: u8) -> KeysIter<'_>
        ensures keys { result ≡ map (λ c. c.0) (held_at self.now feed).parts }
        ensures entities { map (λ c. c.0) (held_at self.now feed).parts ≡ map (λ e. e.0) (entities_before feed (held_at self.now feed).bytes) }
    {
        match room_of(&self.rooms, feed) {
            None => KeysIter { keys: None },
            Some(room) => KeysIter {
                keys: Some(room.entries.keys()),
            },
        }
    }

    /// The keys of a feed's entities, each once, in their order, with the entities.
    pub fn entities(&self, feed: u8) -> EntitiesIter<'_>
        ensures { result ≡ values_of (entities_before feed (held_at self.now feed).bytes) }
    {
        match room_of(&self.rooms, feed) {
            None => EntitiesIter { entries: None },
            Some(room) => EntitiesIter {
                entries: Some(room.entries.iter()),
            },
        }
    }

    /// The keys of a feed's entities, each once, in their order, with what stands there.
    pub fn parts(&self, feed: u8) -> PartsIter<'_>
        ensures { result ≡ (held_at self.now feed).parts }
    {
        match room_of(&self.rooms, feed) {
            None => PartsIter { entries: None },
            Some(room) => PartsIter {
                entries: Some(room.entries.iter()),
            },
        }
    }
}
