//! What an entity and pairing rows answer.
ghost use Rattle.std.specs.Prelude.{◌≡◌, option_copied};
ghost use Rattle.std.specs.Option.{option_map};
ghost use Rattle.feed_values.specs.Cells.{cell_value};
ghost use Rattle.feed_values.specs.Views.{entity_value};
ghost use Rattle.rule_table.specs.Asked.{ask_value};
ghost use Rattle.rule_table.specs.Answers.{pair_answer, rows_answer};
ghost use Rattle.rule_table.specs.Pairs.{first_key};

use feed_values::{CellRef, Entity, field_at, text_cell};
use rule_table::{Answers, AskRef, EntityKey, PairView, number_cell, truth_cell};

fn id_of<'a, P: PairView>(view: &'a P, feed: u8, vehicle: &str) -> Option<&'a str>
    ensures { option_copied result ≡ option_map (λ key. key.id) (first_key (P.rows view.now) feed vehicle.now) }
{
    match view.first_key(feed, vehicle) {
        Some(key) => Some(key.id.as_str()),
        None => None,
    }
}

fn occurrence_of<P: PairView>(view: &P, feed: u8, vehicle: &str) -> Option<u32>
    ensures { result ≡ option_map (λ key. key.occurrence) (first_key (P.rows view.now) feed vehicle.now) }
{
    match view.first_key(feed, vehicle) {
        Some(key) => Some(key.occurrence),
        None => None,
    }
}

fn rows_answer<'a, P: PairView>(view: &'a P, ask: AskRef<'_>) -> Option<CellRef<'a>>
    ensures { option_map cell_value result ≡ rows_answer (P.rows view.now) (ask_value ask.entry) }
{
    match ask {
        AskRef::FirstVehicle(kind, trip) => Some(text_cell(view.first_vehicle(kind, trip))),
        AskRef::HasPair(kind, trip, vehicle) => Some(truth_cell(view.has_pair(
            kind, trip, vehicle,
        ))),
        AskRef::AnyRow(kind) => Some(truth_cell(view.any_row(kind))),
        AskRef::HasTrip(kind, trip) => Some(truth_cell(view.has_trip(kind, trip))),
        AskRef::HasVehicle(kind, vehicle) => Some(truth_cell(view.has_vehicle(kind, vehicle))),
        AskRef::FirstId(feed, vehicle) => Some(text_cell(id_of(view, feed, vehicle))),
        AskRef::FirstOccurrence(feed, vehicle) => {
            Some(number_cell(occurrence_of(view, feed, vehicle)))
        }
        _ => None,
    }
}

/// An entity under its key, with the pairing rows of all entities.
#[derive(Drop)]
pub struct PairAnswers<'a, P: PairView> {
    pub view: &'a P,
    pub key: &'a EntityKey,
    pub entity: &'a Entity,
}

impl<P: PairView> Answers for PairAnswers<'_, P> {
    ghost answers = { λ s. pair_answer (P.rows s.view.now) s.key.now (entity_value s.entity.now) };

    fn answer<'a>(&'a self, ask: AskRef<'_>) -> Option<CellRef<'a>> {
        match ask {
            AskRef::Cell(path) => Some(field_at(self.entity, path)),
            AskRef::Occurrence => Some(CellRef::Number(self.key.occurrence as i128)),
            _ => rows_answer(self.view, ask),
        }
    }
}
