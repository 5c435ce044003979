ghost use Rattle.std.specs.Prelude.{◌≡◌, ℕ, IfOk, OnOk, OnErr, IsErrOf};
ghost use Rattle.std.specs.Option.{option_map};
ghost use Rattle.sw_base.specs.Environment.{WhereTold, HasCause, LeavesPrefix, with_put};
ghost use Rattle.sw_base.specs.OnlyReads.{OnlyReads};
ghost use Rattle.sw_base.specs.Names.{index_name};
ghost use Rattle.log_format.specs.declared.format.Format.TheVariants.{First};
ghost use Rattle.log_format.specs.declared.format.TheConstants.{FORMAT};
ghost use Rattle.race_model.specs.declared.why.IndexWhy.{IndexWhy};
ghost use Rattle.race_model.specs.BadPlace.{no_index, bad_row};
ghost use Rattle.race_model.specs.Row.{index_bytes};
ghost use Rattle.race_model.specs.IndexFault.{AreRows, IsIndex, IsFirstBadIndexPlace};

use crate::row::{IndexAnswer, Row};
use crate::rows::read_rows;
use crate::spelling::spell_rows;
use log_format::{FORMAT, Format};
use std::alloc::Global;
use sw_base::{Folder, Trouble, index_name};

/// The rows of the folder's index, or the first bad place of the index. The rows of every Ok are well formed.
pub fn read_index<F: Folder>(
    alloc: Global,
    folder: &mut F,
    dir: &str,
) -> Result<Vec<Row>, IndexAnswer>
    ensures rows { IfOk result (λ rows. AreRows rows.items) }
    ensures found { IfOk result (λ rows. WhereTold (F.state folder.old).content (λ c. IsIndex FORMAT c.held dir.now rows.items)) }
    ensures missing { IsErrOf result IndexAnswer.NoIndex → WhereTold (F.state folder.old).content (λ c. IsFirstBadIndexPlace FORMAT c.held dir.now no_index) }
    ensures bad { (n : ℕ) (why : IndexWhy) → IsErrOf result (IndexAnswer.Bad n why) →
        WhereTold (F.state folder.old).content (λ c. IsFirstBadIndexPlace FORMAT c.held dir.now (bad_row n why)) }

    ensures reads { OnlyReads F.Folder folder.old folder.new (IsErrOf result IndexAnswer.ReadFault) }
{
    read_index_as(alloc, FORMAT, folder, dir)
}

/// The same of an index of the first format.
pub fn read_index_old<F: Folder>(
    alloc: Global,
    folder: &mut F,
    dir: &str,
) -> Result<Vec<Row>, IndexAnswer>
    ensures rows { IfOk result (λ rows. AreRows rows.items) }
    ensures found { IfOk result (λ rows. WhereTold (F.state folder.old).content (λ c. IsIndex First c.held dir.now rows.items)) }
    ensures missing { IsErrOf result IndexAnswer.NoIndex → WhereTold (F.state folder.old).content (λ c. IsFirstBadIndexPlace First c.held dir.now no_index) }
    ensures bad { (n : ℕ) (why : IndexWhy) → IsErrOf result (IndexAnswer.Bad n why) →
        WhereTold (F.state folder.old).content (λ c. IsFirstBadIndexPlace First c.held dir.now (bad_row n why)) }

    ensures reads { OnlyReads F.Folder folder.old folder.new (IsErrOf result IndexAnswer.ReadFault) }
{
    read_index_as(alloc, Format::First, folder, dir)
}

/// The same of an index of this format.
pub fn read_index_as<F: Folder>(
    alloc: Global,
    format: Format,
    folder: &mut F,
    dir: &str,
) -> Result<Vec<Row>, IndexAnswer>
    ensures rows { IfOk result (λ rows. AreRows rows.items) }
    ensures found { IfOk result (λ rows. WhereTold (F.state folder.old).content (λ c. IsIndex format c.held dir.now rows.items)) }
    ensures missing { IsErrOf result IndexAnswer.NoIndex → WhereTold (F.state folder.old).content (λ c. IsFirstBadIndexPlace format c.held dir.now no_index) }
    ensures bad { (n : ℕ) (why : IndexWhy) → IsErrOf result (IndexAnswer.Bad n why) →
        WhereTold (F.state folder.old).content (λ c. IsFirstBadIndexPlace format c.held dir.now (bad_row n why)) }

    ensures reads { OnlyReads F.Folder folder.old folder.new (IsErrOf result IndexAnswer.ReadFault) }
{
    let name = index_name(alloc, dir)?;
    match folder.size(alloc, &name) {
        Ok(None) => Err(IndexAnswer::NoIndex),
        Ok(Some(_)) => read_rows(alloc, format, folder, &name),
        Err(trouble) => Err(IndexAnswer::from(trouble)),
    }
}

/// Writes the index with these rows.
pub fn write_index<F: Folder>(
    alloc: Global,
    folder: &mut F,
    dir: &str,
    rows: &[Row],
) -> Result<(), Trouble>
    requires { AreRows rows.now }
    ensures done { OnOk result ((F.state folder.new).content ≡ option_map (with_put (index_name dir.now) (index_bytes FORMAT rows.now)) (F.state folder.old).content) }
    ensures refused { OnErr result (LeavesPrefix (F.state folder.old).content (F.state folder.new).content (index_name dir.now) (index_bytes FORMAT rows.now)) }

    ensures cause { HasCause (F.state folder.old).write_faults (F.state folder.new).write_faults result }
    ensures no_fault { OnOk result ((F.state folder.new).write_faults ≡ (F.state folder.old).write_faults) }
    ensures same_roots { (F.state folder.new).roots ≡ (F.state folder.old).roots }
    ensures same_reads { F.read_faults folder.new ≡ F.read_faults folder.old }
{
    let name = index_name(alloc, dir)?;
    let bytes = spell_rows(alloc, rows)?;
    folder.put(alloc, &name, &bytes)
}
