//! The law that ties a role's part to the paths of the sheet.

ghost use Rattle.std.specs.Prelude.{◌≡◌};
ghost use Rattle.protocol.specs.Projection.{PartIsProjection, LabelsAlwaysSuffice, PartsProject};

/// The part is the projection. For every role whose sets keep it on one side with one partner, moves
/// can be made from the start set exactly when they begin the role's share of some path, and the set
/// after them holds exactly the states to which such paths lead. Labels say as much as moves. Both hold
/// of every role that has a part, and there the label determines the whole action.
/// Answers the edition that the law is about.
pub fn projection_stands() -> u8
    ensures projects { PartIsProjection }
    ensures suffice { LabelsAlwaysSuffice }
    ensures parts { PartsProject }
    ensures edition { result ≡ 1 }
{
    1
}
