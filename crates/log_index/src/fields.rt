ghost use Rattle.std.specs.Prelude.{◌≡◌, ◌≤◌, length, All};
ghost use Rattle.std.specs.List.{flat_map};
ghost use Rattle.sw_base.specs.declared.path.Step.{Step};
ghost use Rattle.race_model.specs.Row.{StepFits, RowFits, step_spelling, row_spelling};
ghost use Rattle.log_index.specs.Rows.{raw_of_fields};

use sw_base::{Path, Step};

/// The fields of a row as they stand in the file. Of the four steps the first `depth` are used.
#[derive(Clone, Copy)]
pub struct Fields {
    pub depth: u32,
    pub reserved: u32,
    pub steps: [Step; 4],
    pub records: u64,
}

fn step_of(bytes: &[u8]) -> Step
    requires { length bytes.now ≡ 8 }
    ensures fits { StepFits result }
    ensures spelled { bytes.now ≡ step_spelling result }
{
    Step {
        region: u32::from_be_bytes([bytes[0], bytes[1], bytes[2], bytes[3]]),
        lane: u16::from_be_bytes([bytes[4], bytes[5]]),
        span: u16::from_be_bytes([bytes[6], bytes[7]]),
    }
}

fn steps_of(bytes: &[u8]) -> [Step; 4]
    requires { length bytes.now ≡ 32 }
    ensures fits { All StepFits result }
    ensures spelled { bytes.now ≡ flat_map step_spelling result }
{
    [
        step_of(&bytes[..8]),
        step_of(&bytes[8..16]),
        step_of(&bytes[16..24]),
        step_of(&bytes[24..]),
    ]
}

/// The fields that the bytes of a row spell.
pub fn fields_of(bytes: &[u8; 48]) -> Fields
    ensures fits { RowFits (raw_of_fields result) }
    ensures spelled { bytes.now ≡ row_spelling (raw_of_fields result) }
{
    Fields {
        depth: u32::from_be_bytes([bytes[0], bytes[1], bytes[2], bytes[3]]),
        reserved: u32::from_be_bytes([bytes[4], bytes[5], bytes[6], bytes[7]]),
        steps: steps_of(&bytes[8..40]),
        records: u64::from_be_bytes([
            bytes[40], bytes[41], bytes[42], bytes[43], bytes[44], bytes[45], bytes[46], bytes[47],
        ]),
    }
}

/// The path with these steps.
pub fn path_of(steps: &[Step]) -> Path
    requires { length steps.now ≤ 4 }
    ensures { result ≡ steps.now }
{
    let mut path = Path::root();
    for step in steps {
        path = path.child(step.region, step.lane, step.span);
    }
    path
}
