ghost use Rattle.std.specs.Prelude.{◌≡◌, ◌↔◌, map, All, IsTrue, IfErr, OnOk};
ghost use Rattle.sw_base.specs.declared.path.Step.{Step};
ghost use Rattle.race_model.specs.declared.why.IndexWhy.{IndexWhy};
ghost use Rattle.race_model.specs.Listing.{BeginsListing};
ghost use Rattle.race_model.specs.Row.{raw_of, no_step};
ghost use Rattle.race_model.specs.IndexFault.{HasRegionSpan, HasLaneInSpan, HasDepth, HasRecords, RowPasses};
ghost use Rattle.log_index.specs.Rows.{raw_of_fields, FailsTestFirst};
ghost use Rattle.race_model.specs.Row.{row_path};

use crate::fields::Fields;
use crate::listing::goes_on;
use crate::row::Row;
use log_format::RECORD_LIMIT;
use race_model::IndexWhy;
use sw_base::Step;

/// The most records that a log has.
const MAX_RECORDS: u64 = RECORD_LIMIT as u64;

fn have_spans(steps: &[Step]) -> bool
    ensures { IsTrue result ↔ All HasRegionSpan steps.now }
{
    steps.iter().all(|step| step.span >= 1 && step.span <= 64)
}

fn have_lanes(steps: &[Step]) -> bool
    ensures { IsTrue result ↔ All HasLaneInSpan steps.now }
{
    steps.iter().all(|step| step.lane < step.span)
}

fn are_zero(steps: &[Step]) -> bool
    ensures { IsTrue result ↔ All (λ (step : Step). step ≡ no_step) steps.now }
{
    steps.iter().all(|step| step.region == 0 && step.lane == 0 && step.span == 0)
}

fn has_depth(fields: &Fields) -> bool
    ensures { IsTrue result ↔ HasDepth (raw_of_fields fields.now) }
{
    fields.depth <= 4 && fields.reserved == 0 && are_zero(&fields.steps[fields.depth as usize..])
}

fn has_records(records: u64) -> bool
    ensures { IsTrue result ↔ HasRecords records }
{
    records >= 1 && records <= MAX_RECORDS
}

/// The first rule that a row after others breaks. A whole row is there, and there is room for it.
pub fn check(before: &[Row], fields: &Fields) -> Result<(), IndexWhy>
    requires { BeginsListing (map row_path before.now) }
    ensures passes { OnOk result ((why : IndexWhy) → RowPasses (map raw_of before.now) (raw_of_fields fields.now) why) }
    ensures fails { IfErr result (λ why. FailsTestFirst (map raw_of before.now) (raw_of_fields fields.now) why) }
{
    if !has_depth(fields) {
        return Err(IndexWhy::Depth);
    }
    let steps = &fields.steps[..fields.depth as usize];
    if !have_spans(steps) {
        return Err(IndexWhy::Span);
    }
    if !have_lanes(steps) {
        return Err(IndexWhy::Lane);
    }
    if !goes_on(before, steps) {
        return Err(IndexWhy::Order);
    }
    if !has_records(fields.records) {
        return Err(IndexWhy::Records);
    }
    Ok(())
}
