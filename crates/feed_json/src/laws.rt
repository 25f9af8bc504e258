//! The laws of the JSON form. Each function stands for its contract: it does nothing, and its `ensures` is proved for all
//! values and trees.
ghost use Rattle.std.specs.Prelude.{◌≡◌, ◌↔◌, true, None, Ok, Err};
ghost use Rattle.std.specs.List.{AllByRecursion};
ghost use Rattle.serde_json.specs.Data.{Data};
ghost use Rattle.rt_wire.specs.Fields.{WireField};
ghost use Rattle.feed_values.specs.Messages.{feed_message, feed_header, trip_descriptor, trip_update, stop_time_update};
ghost use Rattle.feed_values.specs.Schema.{Schema, Value};
ghost use Rattle.feed_values.specs.WellFormed.{IsWellFormedFeed};
ghost use Rattle.feed_json.specs.declared.json_fault.JsonFault.{JsonFault};
ghost use Rattle.feed_json.specs.Form.{form};
ghost use Rattle.feed_codec.specs.Merging.{with_field};
ghost use Rattle.feed_json.specs.Later.{is_moved, moved};
ghost use Rattle.feed_json.specs.Unform.{unform};
ghost use Rattle.feed_json.specs.Walk.{IsFirst, walk_message};

/// Nothing is lost: the form of a well-formed snapshot is read as that snapshot.
#[tactic(auto, using(crate::proofs::Holding::form_reads_back))]
pub fn form_reads_back()
    ensures { (v : Value feed_message) → IsWellFormedFeed v → unform feed_message (form feed_message v) ≡ Ok v }
{}

/// A field that is moved from `unknown` to its slot takes effect as it does where a snapshot's bytes have it behind all others.
#[tactic(auto, using(crate::proofs::Taken::header_taken, crate::proofs::Taken::trip_taken, crate::proofs::Taken::update_taken, crate::proofs::Taken::stop_taken))]
pub fn moved_as_taken()
    ensures header { (f : WireField) (v : Value feed_header) → is_moved feed_header f ≡ true → moved feed_header f v ≡ with_field feed_header f v }
    ensures trip { (f : WireField) (v : Value trip_descriptor) → is_moved trip_descriptor f ≡ true → moved trip_descriptor f v ≡ with_field trip_descriptor f v }
    ensures update { (f : WireField) (v : Value trip_update) → is_moved trip_update f ≡ true → moved trip_update f v ≡ with_field trip_update f v }
    ensures stop { (f : WireField) (v : Value stop_time_update) → is_moved stop_time_update f ≡ true → moved stop_time_update f v ≡ with_field stop_time_update f v }
{}

/// A tree is refused with a fault exactly where this fault is the first of its walk.
pub fn fault_is_first()
    ensures { (s : Schema) (d : Data) (e : JsonFault) → (unform s d ≡ Err e) ↔ IsFirst e (walk_message s d) }
{}

/// Where a tree is read as a message, its walk finds no fault.
#[tactic(auto, using(crate::proofs::Walking::no_fault_is_found))]
pub fn no_fault_is_found()
    ensures { (s : Schema) (d : Data) (v : Value s) → unform s d ≡ Ok v
        → AllByRecursion (λ check. check ≡ None) (walk_message s d) }
{}
