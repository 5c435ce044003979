//! The logs of a run are sealed and their index is written, or they are given up.
ghost use Rattle.std.specs.Prelude.{◌≡◌, ◌⊎◌, ◌^◌, ◌<◌, ◌≤◌, length, sum_by, map, is_some, IfOk, OnOk, OnErr, IsErrOf};
ghost use Rattle.std.specs.Option.{option_map};
ghost use Rattle.sw_base.specs.Environment.{WhereTold, Rose, HasCause, TakesFaults, LeavesPrefix, with_log};
ghost use Rattle.sw_base.specs.Names.{log_name};
ghost use Rattle.race_model.specs.IndexFault.{AreRows};
ghost use Rattle.region_runner.specs.Answer.{AreFaultless};
ghost use Rattle.run_command.specs.Seals.{RaiseFaults};
ghost use Rattle.run_command.specs.Seals.{SealsAll, StoresAll, StoresPrefix, all_logged, row_of_entry};

use log_index::{Row, write_index};
use std::alloc::{AllocError, Global};
use sw_base::{ClosedLog, Folder, Log, Trouble};

/// Seals a log. One that is refused is given up.
fn seal_one<F: Folder>(alloc: Global, folder: &mut F, log: F::Log) -> Result<(), Trouble>
    ensures done { OnOk result (WhereTold (F.Log.text log) (λ text.
        (F.state folder.new).content ≡ option_map (with_log (log_name (F.Log.dir log) (F.Log.path log)) text) (F.state folder.old).content)) }
    ensures refused { OnErr result (WhereTold (F.Log.text log) (λ text.
        LeavesPrefix (F.state folder.old).content (F.state folder.new).content (log_name (F.Log.dir log) (F.Log.path log)) text.bytes)) }
    ensures tells { is_some (F.state folder.new).content ≡ is_some (F.state folder.old).content }
    ensures log_faults { TakesFaults (F.Log.faults log) (F.state folder.old).write_faults (F.state folder.new).write_faults }
    ensures cause { HasCause (F.state folder.old).write_faults (F.state folder.new).write_faults result }
    ensures no_fault { OnOk result (F.Log.faults log ≡ 0 → (F.state folder.new).write_faults ≡ (F.state folder.old).write_faults) }
    ensures same_roots { (F.state folder.new).roots ≡ (F.state folder.old).roots }
    ensures same_reads { F.read_faults folder.new ≡ F.read_faults folder.old }
{
    match folder.seal(alloc, log) {
        Ok(()) => Ok(()),
        Err((trouble, log)) => {
            folder.discard(log);
            Err(trouble)
        }
    }
}

/// Seals one more log after others, unless one of them was refused: then it is given up.
fn seal_next<F: Folder>(
    alloc: Global,
    folder: &mut F,
    log: F::Log,
    so_far: Result<(), Trouble>,
) -> Result<(), Trouble>
    ensures sealed { OnOk so_far (OnOk result (WhereTold (F.Log.text log) (λ text.
        (F.state folder.new).content ≡ option_map (with_log (log_name (F.Log.dir log) (F.Log.path log)) text) (F.state folder.old).content))) }
    ensures refused { OnOk so_far (OnErr result (WhereTold (F.Log.text log) (λ text.
        LeavesPrefix (F.state folder.old).content (F.state folder.new).content (log_name (F.Log.dir log) (F.Log.path log)) text.bytes))) }
    ensures given_up { OnErr so_far ((result ≡ so_far) × ((F.state folder.new).content ≡ (F.state folder.old).content)) }
    ensures tells { is_some (F.state folder.new).content ≡ is_some (F.state folder.old).content }
    ensures log_faults { TakesFaults (F.Log.faults log) (F.state folder.old).write_faults (F.state folder.new).write_faults }
    ensures cause { IsErrOf result Trouble.Failed → IsErrOf so_far Trouble.Failed ⊎ Rose (F.state folder.old).write_faults (F.state folder.new).write_faults }
    ensures no_fault { OnOk so_far (OnOk result (F.Log.faults log ≡ 0 → (F.state folder.new).write_faults ≡ (F.state folder.old).write_faults)) }
    ensures same_roots { (F.state folder.new).roots ≡ (F.state folder.old).roots }
    ensures same_reads { F.read_faults folder.new ≡ F.read_faults folder.old }
{
    match so_far {
        Ok(()) => seal_one(alloc, folder, log),
        Err(trouble) => {
            folder.discard(log);
            Err(trouble)
        }
    }
}

/// Seals logs one after another. Once one is refused, it and the rest are given up.
pub fn seal_all<F: Folder>(
    alloc: Global,
    folder: &mut F,
    logs: Vec<ClosedLog<F::Log>>,
) -> Result<(), Trouble>
    ensures seals { SealsAll (all_logged F.Log.dir F.Log.path F.Log.text logs.items) result (F.state folder.old).content (F.state folder.new).content }
    ensures tells { is_some (F.state folder.new).content ≡ is_some (F.state folder.old).content }
    ensures faulty { RaiseFaults F.Log.faults logs.items (Rose (F.state folder.old).write_faults (F.state folder.new).write_faults) }
    ensures cause { HasCause (F.state folder.old).write_faults (F.state folder.new).write_faults result }
    ensures no_fault { OnOk result (AreFaultless F.Log.faults logs.items → (F.state folder.new).write_faults ≡ (F.state folder.old).write_faults) }
    ensures same_roots { (F.state folder.new).roots ≡ (F.state folder.old).roots }
    ensures same_reads { F.read_faults folder.new ≡ F.read_faults folder.old }
{
    let mut outcome = Ok(());
    for ClosedLog { log, .. } in logs {
        outcome = seal_next(alloc, folder, log, outcome);
    }
    outcome
}

/// Gives up logs.
pub fn discard_all<F: Folder>(folder: &mut F, logs: Vec<ClosedLog<F::Log>>)
    ensures same { (F.state folder.new).content ≡ (F.state folder.old).content }
    ensures later { (F.state folder.old).write_faults ≤ (F.state folder.new).write_faults }
    ensures faulty { RaiseFaults F.Log.faults logs.items (Rose (F.state folder.old).write_faults (F.state folder.new).write_faults) }
    ensures same_roots { (F.state folder.new).roots ≡ (F.state folder.old).roots }
    ensures same_reads { F.read_faults folder.new ≡ F.read_faults folder.old }
{
    for ClosedLog { log, .. } in logs {
        folder.discard(log);
    }
}

/// The rows of the index for these logs.
fn index_rows<L: Log>(alloc: Global, logs: &[ClosedLog<L>]) -> Result<Vec<Row>, AllocError>
    ensures { IfOk result (λ rows. rows.items ≡ map row_of_entry logs.now) }
{
    let mut rows = Vec::new(alloc);
    for closed in logs {
        rows.push(Row {
            path: closed.path.copy(),
            records: closed.records,
        })?;
    }
    Ok(rows)
}

/// How many records the logs have in all.
pub fn records_in(rows: &[Row]) -> u64
    requires { length rows.now < 2 ^ 32 }
    ensures { result ≡ sum_by (λ row. row.records) rows.now }
{
    let mut count = 0;
    for row in rows {
        count += u64::from(row.records);
    }
    count
}

/// Seals the logs of a whole run, and then writes their index, whose rows are answered.
pub fn store<F: Folder>(
    alloc: Global,
    folder: &mut F,
    dir: &str,
    logs: Vec<ClosedLog<F::Log>>,
) -> Result<Vec<Row>, Trouble>
    requires { AreRows (map row_of_entry logs.items) }
    ensures rows { IfOk result (λ rows. rows.items ≡ map row_of_entry logs.items) }
    ensures stored { OnOk result (StoresAll dir.now (all_logged F.Log.dir F.Log.path F.Log.text logs.items) (F.state folder.old).content (F.state folder.new).content) }
    ensures refused { OnErr result (StoresPrefix dir.now (all_logged F.Log.dir F.Log.path F.Log.text logs.items) (F.state folder.old).content (F.state folder.new).content) }
    ensures tells { is_some (F.state folder.new).content ≡ is_some (F.state folder.old).content }
    ensures faulty { RaiseFaults F.Log.faults logs.items (Rose (F.state folder.old).write_faults (F.state folder.new).write_faults) }
    ensures cause { HasCause (F.state folder.old).write_faults (F.state folder.new).write_faults result }
    ensures no_fault { OnOk result (AreFaultless F.Log.faults logs.items → (F.state folder.new).write_faults ≡ (F.state folder.old).write_faults) }
    ensures same_roots { (F.state folder.new).roots ≡ (F.state folder.old).roots }
    ensures same_reads { F.read_faults folder.new ≡ F.read_faults folder.old }
{
    let Ok(rows) = index_rows(alloc, &logs) else {
        discard_all(folder, logs);
        return Err(Trouble::Memory);
    };
    seal_all(alloc, folder, logs)?;
    write_index(alloc, folder, dir, &rows)?;
    Ok(rows)
}
