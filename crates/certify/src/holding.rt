//! The folder of a serial run, in memory.
ghost use Rattle.std.specs.Prelude.{◌≡◌, ◌++◌, [], ◌∷◌, codes, map, IfOk, OnOk, Some};
ghost use Rattle.std.specs.Option.{option_map};
ghost use Rattle.sw_base.specs.Environment.{with_put};
ghost use Rattle.sw_base.specs.Names.{log_name};
ghost use Rattle.log_format.specs.declared.format.TheConstants.{FORMAT};
ghost use Rattle.race_model.specs.FirstBad.{HoldsTrace};
ghost use Rattle.memory_environment.specs.MemFolder.{content_of};
ghost use Rattle.serial_team.specs.Members.{whole_log};
ghost use Rattle.certify.specs.Holding.{HoldsTasks, KeepRules, row_of_log, with_whole_log, with_logs};

use log_index::{Row, write_index};
use memory_environment::MemFolder;
use serial_team::TaskLog;
use std::alloc::Global;
use sw_base::{Folder, Memory};

/// The folder's name.
pub(crate) const DIR: &str = "c";

// Puts the log of a task. No call on a folder in memory is to fail, so it wants nothing but memory.
fn put_log(alloc: Global, folder: &mut MemFolder, log: &TaskLog) -> Result<(), Memory>
    ensures { OnOk result (content_of folder.new ≡ option_map (with_whole_log (codes "c") (whole_log log.now)) (content_of folder.old)) }
{
    let name = log.path.name(alloc, DIR)?;
    match folder.put(alloc, &name, &log.log) {
        Ok(()) => Ok(()),
        Err(_) => Err(Memory),
    }
}

// Puts the logs, each of which is dropped then, and adds their rows.
fn put_logs(
    alloc: Global,
    folder: &mut MemFolder,
    logs: Vec<TaskLog>,
    rows: &mut Vec<Row>,
) -> Result<(), Memory>
    ensures content { OnOk result (content_of folder.new ≡ option_map (with_logs (codes "c") (map whole_log logs.items)) (content_of folder.old)) }
    ensures rows { OnOk result (rows.new.items ≡ rows.old.items ++ map row_of_log (map whole_log logs.items)) }
{
    for log in logs {
        put_log(alloc, folder, &log)?;
        let TaskLog { path, records, .. } = log;
        rows.push(Row { path, records })?;
    }
    Ok(())
}

/// The folder that holds the tasks of these logs, which keep every rule.
pub(crate) fn folder_of(alloc: Global, logs: Vec<TaskLog>) -> Result<MemFolder, Memory>
    requires { KeepRules (map whole_log logs.items) }
    ensures { IfOk result (λ folder. HoldsTasks (codes "c") (map whole_log logs.items) (content_of folder)) }
{
    let mut folder = MemFolder::new(alloc)?;
    let mut rows = Vec::new(alloc);
    put_logs(alloc, &mut folder, logs, &mut rows)?;
    match write_index(alloc, &mut folder, DIR, &rows) {
        Ok(()) => Ok(folder),
        Err(_) => Err(Memory),
    }
}
