//! The snapshots of the trial.
ghost use Rattle.std.specs.Prelude.{◌≡◌, ◌<◌, ◌+◌, IfOk};
ghost use Rattle.trial_feed.specs.Moving.{begun, advanced, first_states, IsWithin};
ghost use Rattle.trial_feed.specs.Messages.{feed_of, moment_of, header_of, snapshot_message, snapshot_bytes};

use crate::changes::change;
use crate::entities::{START, entities};
use crate::entity_state::EntityState;
use crate::letter::Letter;
use feed_codec::encode;
use feed_values::{FeedHeader, FeedMessage, Items, Text};
use std::alloc::{AllocError, Global};
use std::marker::Model;

/// How many entities each snapshot has.
pub const ENTITIES: usize = 2000;

/// How many snapshots the trial has, of both feeds together: those with even numbers, from 0, are of feed 0, and those with
/// odd numbers of feed 1.
pub const SNAPSHOTS: u64 = 40;

/// From one snapshot to the next, in seconds.
const INTERVAL: u64 = 15;

/// The delays at the start are below it, in seconds.
const DELAYS: usize = 600;

/// What the snapshots show, from one to the next.
///
/// Before snapshot `number` comes `advance` with its number, and then `bytes` gives it: `SNAPSHOTS` of them, from number 0
/// on.
#[derive(Drop)]
pub struct Trial {
    state: u64,
    updates: Vec<EntityState>,
    positions: Vec<EntityState>,
}

impl Model for Trial {
    ghost use Rattle.trial_feed.specs.Moving.{Moving};

    ghost Value = { Moving };

    ghost view = { λ t. record { state = t.state; updates = t.updates.items; positions = t.positions.items } };
}

impl Trial {
    /// The start. Any number is a seed.
    pub fn new(alloc: Global, seed: u64) -> Result<Trial, AllocError>
        ensures start { IfOk result (λ trial. trial ≡ begun seed) }
        ensures within { IfOk result (λ trial. IsWithin 0 trial) }
    {
        Ok(Trial {
            state: seed,
            updates: first_states(alloc, 0, ENTITIES)?,
            positions: first_states(alloc, 1, ENTITIES)?,
        })
    }

    /// Changes what moves, as it does before snapshot `number`. It takes no memory.
    #[tactic(auto, using(crate::proofs::Keeping::advanced_within))]
    pub fn advance(&mut self, number: u64)
        requires limit { number < SNAPSHOTS }
        requires within { IsWithin number self.old }
        ensures next { self.new ≡ advanced number self.old }
        ensures within { IsWithin (number + 1) self.new }
    {
        self.change_feed(number);
    }

    /// Changes the feed of snapshot `number`, where there was one of this feed before.
    fn change_feed(&mut self, number: u64)
        requires limit { number < SNAPSHOTS }
        requires within { IsWithin number self.old }
        ensures { self.new ≡ advanced number self.old }
    {
        if number < 2 {
            return;
        }
        if number % 2 == 0 {
            change(&mut self.state, &mut self.updates);
        } else {
            change(&mut self.state, &mut self.positions);
        }
    }

    /// The bytes of snapshot `number`, before which `advance` came with its number.
    #[tactic(auto, using(crate::proofs::Formed::snapshot_formed), unfolding(crate::specs::Messages::snapshot_bytes))]
    pub fn bytes(&self, alloc: Global, number: u64) -> Result<Vec<u8>, AllocError>
        requires limit { number < SNAPSHOTS }
        requires within { IsWithin (number + 1) self.now }
        ensures { IfOk result (λ bytes. bytes.items ≡ snapshot_bytes number self.now) }
    {
        let message = self.message(alloc, number)?;
        encode(alloc, &message)
    }

    fn message(&self, alloc: Global, number: u64) -> Result<FeedMessage, AllocError>
        requires limit { number < SNAPSHOTS }
        requires within { IsWithin (number + 1) self.now }
        ensures { IfOk result (λ message. message ≡ snapshot_message number self.now) }
    {
        let feed = number % 2;
        let states = if feed == 0 {
            &self.updates
        } else {
            &self.positions
        };
        Ok(FeedMessage {
            header: header(alloc, number)?,
            entity: entities(alloc, feed, states)?,
            unknown: Items::new(alloc),
        })
    }
}

/// The feed of snapshot `number`.
pub fn feed_of(number: u64) -> u8
    ensures { result ≡ feed_of number }
{
    (number % 2) as u8
}

/// When snapshot `number` was taken, in POSIX seconds.
pub fn moment_of(number: u64) -> u64
    requires { number < SNAPSHOTS }
    ensures { result ≡ moment_of number }
{
    START + INTERVAL * number
}

/// The header of snapshot `number`: of version 2.0, FULL_DATASET.
fn header(alloc: Global, number: u64) -> Result<FeedHeader, AllocError>
    requires { number < SNAPSHOTS }
    ensures { IfOk result (λ header. header ≡ header_of number) }
{
    let mut version = Text::new(alloc);
    version.push("2.0")?;
    Ok(FeedHeader {
        gtfs_realtime_version: version,
        incrementality: Some(0),
        timestamp: Some(moment_of(number)),
        feed_version: None,
        unknown: Items::new(alloc),
    })
}

/// What moves of so many entities of a feed at the start.
#[tactic(auto, using(crate::proofs::Starts::one_state))]
fn first_states(alloc: Global, feed: u64, count: usize) -> Result<Vec<EntityState>, AllocError>
    ensures { IfOk result (λ states. states.items ≡ first_states feed count) }
{
    let mut states = Vec::with_capacity(alloc, count)?;
    for k in 0..count {
        let number = if feed == 0 { (k % DELAYS) as u32 } else { 1 };
        states.push(EntityState {
            letter: Letter::V,
            number,
        })?;
    }
    Ok(states)
}
