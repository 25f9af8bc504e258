//! How the entities of a feed change from snapshot to snapshot.
ghost use Rattle.std.specs.Prelude.{◌≡◌, ◌<◌, ◌^◌, length};
ghost use Rattle.trial_feed.specs.Moving.{moved, AllBelow};

use crate::draws::draw;
use crate::entity_state::EntityState;
use crate::trial::ENTITIES;

/// How many entities change.
const CHANGES: u64 = 20;

/// How many numbers a change is drawn from; at 0 it is the letter that changes.
const KINDS: u64 = 4;

/// Changes some entities of a feed, from one that is drawn on.
pub(crate) fn change(state: &mut u64, entities: &mut [EntityState])
    requires whole { length entities.old ≡ 2000 }
    requires small { AllBelow (2 ^ 31) entities.old }
    ensures { record { state = state.new; entities = entities.new } ≡ moved (record { state = state.old; entities = entities.old }) }
{
    let first = draw(state, ENTITIES as u64);
    for j in 0..CHANGES {
        let k = ((first + j) % ENTITIES as u64) as usize;
        let drawn = draw(state, KINDS);
        entities[k] = entities[k].changed(drawn);
    }
}
