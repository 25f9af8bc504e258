//! What stays when more bytes come. Each function stands for its contract: it does nothing, and its `ensures` is proved for all lists
//! of bytes.
ghost use Rattle.field_pieces.specs.Stays.{FaultStays};
ghost use Rattle.field_pieces.specs.Fronts.{FrontStays};

/// A field that is wrong, and doesn't just end too early, is wrong in the same way whatever bytes follow.
pub fn fault_stays()
    ensures { FaultStays }
{}

/// A front of a group is one of longer bytes too.
#[tactic(auto, using(crate::proofs::FrontSteps::grows))]
pub fn front_stays()
    ensures { FrontStays }
{}
