//! The folder of a generated run.
ghost use Rattle.std.specs.Prelude.{◌≡◌, ℕ, List, ◌+◌, ◌<◌, ◌≤◌, ◌++◌, [], ◌∷◌, IfOk, OnErr, OnOk};
ghost use Rattle.std.specs.List.{flat_map};
ghost use Rattle.std.specs.Option.{option_map};
ghost use Rattle.log_format.specs.declared.format.TheConstants.{FORMAT};
ghost use Rattle.log_format.specs.Format.{log_header};
ghost use Rattle.sw_base.specs.Environment.{Content, HasCause, LeavesPrefix, with_put};
ghost use Rattle.sw_base.specs.Names.{log_name};
ghost use Rattle.log_format.specs.Spelling.{log_bytes, spelling};
ghost use Rattle.race_model.specs.FirstBad.{HoldsTrace, row_of, rows_of};
ghost use Rattle.generated_run.specs.Generated.{generated, log_of_lane, logs_of_lanes, root_task, task_of};
ghost use Rattle.log_index.specs.Puts.{LeavesTask, PutsLogs, PutsPart, with_run, with_task, with_tasks};

use crate::records::{SPAN, records_of_lane, records_of_root};
use log_format::{FORMAT, Record, encode};
use log_index::{Row, write_index};
use std::alloc::{AllocError, Global};
use sw_base::{Folder, Path, Trouble};

fn push_record(bytes: &mut Vec<u8>, r: &Record) -> Result<(), AllocError>
    ensures { OnOk result (bytes.new.items ≡ bytes.old.items ++ spelling r.now) }
{
    bytes.extend_from_slice(&encode(r))?;
    Ok(())
}

/// The bytes of a log with these records.
fn spell(alloc: Global, records: &[Record]) -> Result<Vec<u8>, AllocError>
    ensures { IfOk result (λ bytes. bytes.items ≡ log_bytes (log_header FORMAT) records.now) }
{
    let mut bytes = Vec::from_slice(alloc, &FORMAT.log_header())?;
    for record in records {
        push_record(&mut bytes, record)?;
    }
    Ok(bytes)
}

/// Puts the log of a task.
fn put_log<F: Folder>(
    alloc: Global,
    folder: &mut F,
    dir: &str,
    path: &Path,
    records: &[Record],
) -> Result<(), Trouble>
    ensures done { OnOk result ((F.state folder.new).content ≡ option_map (with_task dir.now (task_of path.now «records».now)) (F.state folder.old).content) }
    ensures refused { OnErr result (LeavesTask dir.now (task_of path.now «records».now) (F.state folder.old).content (F.state folder.new).content) }
    ensures cause { HasCause (F.state folder.old).write_faults (F.state folder.new).write_faults result }
    ensures same_roots { (F.state folder.new).roots ≡ (F.state folder.old).roots }
    ensures same_reads { F.read_faults folder.new ≡ F.read_faults folder.old }
{
    let name = path.name(alloc, dir)?;
    let bytes = spell(alloc, records)?;
    folder.put(alloc, &name, &bytes)
}

/// Puts the log of a lane, and adds its row.
fn put_lane<F: Folder>(
    alloc: Global,
    folder: &mut F,
    dir: &str,
    rounds: u32,
    lane: u16,
    rows: &mut Vec<Row>,
) -> Result<(), Trouble>
    requires rounds { rounds ≤ 100000 }
    requires lane { lane < 8 }
    ensures done { OnOk result ((F.state folder.new).content ≡ option_map (with_task dir.now (log_of_lane rounds lane)) (F.state folder.old).content) }
    ensures row { OnOk result (rows.new.items ≡ rows.old.items ++ row_of (log_of_lane rounds lane) ∷ []) }
    ensures refused { OnErr result (LeavesTask dir.now (log_of_lane rounds lane) (F.state folder.old).content (F.state folder.new).content) }
    ensures cause { HasCause (F.state folder.old).write_faults (F.state folder.new).write_faults result }
    ensures same_roots { (F.state folder.new).roots ≡ (F.state folder.old).roots }
    ensures same_reads { F.read_faults folder.new ≡ F.read_faults folder.old }
{
    let path = Path::root().child(0, lane, SPAN);
    let records = records_of_lane(alloc, rounds, lane)?;
    let count = records.len() as u32;
    rows.try_reserve(1)?;
    put_log(alloc, folder, dir, &path, &records)?;
    rows.push(Row {
        path,
        records: count,
    })
    .unwrap();
    Ok(())
}

/// Puts the logs of the lanes, and adds their rows.
fn put_lanes<F: Folder>(
    alloc: Global,
    folder: &mut F,
    dir: &str,
    rounds: u32,
    rows: &mut Vec<Row>,
) -> Result<(), Trouble>
    requires rounds { rounds ≤ 100000 }
    ensures done { OnOk result ((F.state folder.new).content ≡ option_map (with_tasks dir.now (logs_of_lanes rounds 8)) (F.state folder.old).content) }
    ensures row { OnOk result (rows.new.items ≡ rows.old.items ++ rows_of (logs_of_lanes rounds 8)) }
    ensures refused { OnErr result (PutsLogs dir.now (logs_of_lanes rounds 8) (F.state folder.old).content (F.state folder.new).content) }
    ensures cause { HasCause (F.state folder.old).write_faults (F.state folder.new).write_faults result }
    ensures same_roots { (F.state folder.new).roots ≡ (F.state folder.old).roots }
    ensures same_reads { F.read_faults folder.new ≡ F.read_faults folder.old }
{
    for lane in 0..SPAN {
        put_lane(alloc, folder, dir, rounds, lane, rows)?;
    }
    Ok(())
}

/// Puts the log of the root, and adds its row.
fn put_root<F: Folder>(
    alloc: Global,
    folder: &mut F,
    dir: &str,
    rows: &mut Vec<Row>,
) -> Result<(), Trouble>
    ensures done { OnOk result ((F.state folder.new).content ≡ option_map (with_task dir.now root_task) (F.state folder.old).content) }
    ensures row { OnOk result (rows.new.items ≡ rows.old.items ++ row_of root_task ∷ []) }
    ensures refused { OnErr result (LeavesTask dir.now root_task (F.state folder.old).content (F.state folder.new).content) }
    ensures cause { HasCause (F.state folder.old).write_faults (F.state folder.new).write_faults result }
    ensures same_roots { (F.state folder.new).roots ≡ (F.state folder.old).roots }
    ensures same_reads { F.read_faults folder.new ≡ F.read_faults folder.old }
{
    rows.try_reserve(1)?;
    put_log(alloc, folder, dir, &Path::root(), &records_of_root())?;
    rows.push(Row {
        path: Path::root(),
        records: 2,
    })
    .unwrap();
    Ok(())
}

/// Puts the logs of the run of so many rounds, in the order of their rows, and then their index. Nothing else in the folder
/// changes. After an error the first of the logs are there, and perhaps a prefix of the next one or of the index.
pub fn generate<F: Folder>(
    alloc: Global,
    folder: &mut F,
    dir: &str,
    rounds: u32,
) -> Result<(), Trouble>
    requires { (1 ≤ rounds) × (rounds ≤ 100000) }
    ensures done { OnOk result ((F.state folder.new).content ≡ option_map (with_run dir.now (generated rounds)) (F.state folder.old).content) }
    ensures refused { OnErr result (PutsPart dir.now (generated rounds) (F.state folder.old).content (F.state folder.new).content) }
    ensures cause { HasCause (F.state folder.old).write_faults (F.state folder.new).write_faults result }
    ensures same_roots { (F.state folder.new).roots ≡ (F.state folder.old).roots }
    ensures same_reads { F.read_faults folder.new ≡ F.read_faults folder.old }
{
    let mut rows = Vec::new(alloc);
    put_root(alloc, folder, dir, &mut rows)?;
    put_lanes(alloc, folder, dir, rounds, &mut rows)?;
    write_index(alloc, folder, dir, &rows)?;
    Ok(())
}

/// The folder into which a run was put holds it.
pub fn generated_folder_holds_its_run()
    ensures { (rounds : ℕ) (dir : List ℕ) (content : Content) → 1 ≤ rounds → rounds ≤ 100000
        → HoldsTrace FORMAT (with_run dir (generated rounds) content).held dir (generated rounds) }
{}
