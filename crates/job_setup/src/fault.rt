//! Why a part, tools and a machine give no job.

use allowance::AllowFault;
use unfolder::UnfoldFault;

/// Why a part, tools and a machine give no job, in the order in which it is tested.
#[derive(Clone, Copy, Debug, PartialEq, Eq)]
pub enum JobFault {
    /// The shop's table gives the part no deduction.
    Allow(AllowFault),
    /// The part doesn't unfold.
    Unfold(UnfoldFault),
    /// The first stage whose punch or die the shop doesn't have.
    UnknownTool { stage: u8 },
    /// The first stage whose punch or die isn't as high as that of stage 0.
    UnequalHeight { stage: u8 },
    /// The first two stages, in order of a and then b, that overlap on the bed.
    StageOverlap { a: u8, b: u8 },
    /// The first stage that isn't within the bed.
    OffBed { stage: u8 },
    /// There is no stage.
    NoStage,
    /// The first stage at which more pieces of a length have been used with a punch or a die than
    /// the shop has.
    StockShort { stage: u8 },
    /// The first stage for which the load table, which isn't empty, has no row.
    NoLoad { stage: u8 },
    /// The first stage for which the load table has at least two rows.
    TwoLoads { stage: u8 },
}
