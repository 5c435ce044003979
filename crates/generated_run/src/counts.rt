//! How many accesses and barrier intervals a generated run has.
ghost use Rattle.std.specs.Prelude.{◌≡◌, ◌≤◌};
ghost use Rattle.race_model.specs.FirstBad.{segments_in};
ghost use Rattle.generated_run.specs.Generated.{accesses_in, generated};

/// How many reads and writes its logs have.
pub fn accesses(rounds: u32) -> u64
    ensures { result ≡ accesses_in (generated rounds) }
{
    16 * u64::from(rounds) + 1
}

/// How many barrier intervals with an access it has: two in each lane.
pub fn segments(rounds: u32) -> u64
    requires { 1 ≤ rounds }
    ensures { result ≡ segments_in (generated rounds) }
{
    16
}
