ghost use Rattle.std.specs.Prelude.{◌≡◌, ◌++◌, IfOk, OnOk};
ghost use Rattle.std.specs.List.{flat_map};
ghost use Rattle.sw_base.specs.declared.path.Step.{Step};
ghost use Rattle.log_format.specs.declared.format.TheConstants.{FORMAT};
ghost use Rattle.race_model.specs.Row.{raw_of, step_spelling, row_spelling, index_bytes};

use crate::row::Row;
use log_format::FORMAT;
use std::alloc::{AllocError, Global};
use sw_base::Step;

/// The four steps of a row whose path uses none.
const UNUSED: [Step; 4] = [Step {
    region: 0,
    lane: 0,
    span: 0,
}; 4];

fn push_step(bytes: &mut Vec<u8>, step: &Step) -> Result<(), AllocError>
    ensures { OnOk result (bytes.new.items ≡ bytes.old.items ++ step_spelling step.now) }
{
    bytes.extend_from_slice(&step.region.to_be_bytes())?;
    bytes.extend_from_slice(&step.lane.to_be_bytes())?;
    bytes.extend_from_slice(&step.span.to_be_bytes())?;
    Ok(())
}

fn push_steps(bytes: &mut Vec<u8>, steps: &[Step]) -> Result<(), AllocError>
    ensures { OnOk result (bytes.new.items ≡ bytes.old.items ++ flat_map step_spelling steps.now) }
{
    for step in steps {
        push_step(bytes, step)?;
    }
    Ok(())
}

fn push_row(bytes: &mut Vec<u8>, row: &Row) -> Result<(), AllocError>
    ensures { OnOk result (bytes.new.items ≡ bytes.old.items ++ row_spelling (raw_of row.now)) }
{
    let steps = row.steps();
    bytes.extend_from_slice(&(steps.len() as u32).to_be_bytes())?;
    bytes.extend_from_slice(&[0; 4])?;
    push_steps(bytes, steps)?;
    let (_, unused) = UNUSED.as_slice().split_at(steps.len());
    push_steps(bytes, unused)?;
    bytes.extend_from_slice(&(row.records as u64).to_be_bytes())?;
    Ok(())
}

/// The bytes of an index with these rows.
pub fn spell_rows(alloc: Global, rows: &[Row]) -> Result<Vec<u8>, AllocError>
    ensures { IfOk result (λ bytes. bytes.items ≡ index_bytes FORMAT rows.now) }
{
    let mut bytes = Vec::from_slice(alloc, &FORMAT.index_header())?;
    for row in rows {
        push_row(&mut bytes, row)?;
    }
    Ok(bytes)
}
