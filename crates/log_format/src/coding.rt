ghost use Rattle.std.specs.Prelude.{◌≡◌, slice_index, IfOk, IfErr};
ghost use Rattle.log_format.specs.declared.record.Record.{Record};
ghost use Rattle.log_format.specs.declared.record.Why.{Why};
ghost use Rattle.log_format.specs.declared.format.Format.{Format};
ghost use Rattle.log_format.specs.declared.format.TheConstants.{FORMAT};
ghost use Rattle.log_format.specs.Format.{AllowsKind};
ghost use Rattle.log_format.specs.Spelling.{kind_code, spelling};
ghost use Rattle.log_format.specs.Table.{RecordFits, IsTabled, Spells, IsFirstFault};

use crate::format::{FORMAT, Format};
use crate::record::{Kind, Record, Why};
use crate::table::{check, code_of, kind_of};

/// The 24 bytes of a record.
pub fn encode(r: &Record) -> [u8; 24]
    ensures spelled { result ≡ spelling r.now }
    ensures spells { (format : Format) → IsTabled format r.now → Spells format result r.now }
{
    let site = r.site.to_be_bytes();
    let line = r.line.to_be_bytes();
    let addr = r.addr.to_be_bytes();
    let value = r.value.to_be_bytes();
    [
        code_of(r.kind),
        r.size,
        site[0],
        site[1],
        line[0],
        line[1],
        line[2],
        line[3],
        addr[0],
        addr[1],
        addr[2],
        addr[3],
        addr[4],
        addr[5],
        addr[6],
        addr[7],
        value[0],
        value[1],
        value[2],
        value[3],
        value[4],
        value[5],
        value[6],
        value[7],
    ]
}

#[inline(always)]
fn fields(kind: Kind, bytes: &[u8; 24]) -> Record
    requires { slice_index bytes.now 0 ≡ kind_code kind }
    ensures kind { result.kind ≡ kind }
    ensures fits { RecordFits result }
    ensures spelled { bytes.now ≡ spelling result }
{
    Record {
        kind,
        size: bytes[1],
        site: u16::from_be_bytes([bytes[2], bytes[3]]),
        line: u32::from_be_bytes([bytes[4], bytes[5], bytes[6], bytes[7]]),
        addr: u64::from_be_bytes([
            bytes[8], bytes[9], bytes[10], bytes[11], bytes[12], bytes[13], bytes[14], bytes[15],
        ]),
        value: u64::from_be_bytes([
            bytes[16], bytes[17], bytes[18], bytes[19], bytes[20], bytes[21], bytes[22], bytes[23],
        ]),
    }
}

/// The record that these bytes spell in the format that the program reads, or the first test that they fail.
pub fn decode(bytes: &[u8; 24]) -> Result<Record, Why>
    ensures found { IfOk result (λ r. Spells FORMAT bytes.now r) }
    ensures only { (r : Record) → Spells FORMAT bytes.now r → result ≡ Ok r }
    ensures fault { IfErr result (λ w. IsFirstFault FORMAT bytes.now w) }
    ensures told { (w : Why) → IsFirstFault FORMAT bytes.now w → result ≡ Err w }
{
    decode_as(FORMAT, bytes)
}

/// The record that these bytes spell in the first format, or the first test that they fail.
pub fn decode_old(bytes: &[u8; 24]) -> Result<Record, Why>
    ensures found { IfOk result (λ r. Spells Format.First bytes.now r) }
    ensures only { (r : Record) → Spells Format.First bytes.now r → result ≡ Ok r }
    ensures fault { IfErr result (λ w. IsFirstFault Format.First bytes.now w) }
    ensures told { (w : Why) → IsFirstFault Format.First bytes.now w → result ≡ Err w }
{
    decode_as(Format::First, bytes)
}

/// The record that these bytes spell in this format, or the first test that they fail.
#[inline(always)]
pub fn decode_as(format: Format, bytes: &[u8; 24]) -> Result<Record, Why>
    ensures found { IfOk result (λ r. Spells format bytes.now r) }
    ensures only { (r : Record) → Spells format bytes.now r → result ≡ Ok r }
    ensures fault { IfErr result (λ w. IsFirstFault format bytes.now w) }
    ensures told { (w : Why) → IsFirstFault format bytes.now w → result ≡ Err w }
{
    let Some(kind) = kind_of(format, bytes[0]) else {
        return Err(Why::Kind);
    };
    let record = fields(kind, bytes);
    match check(format, &record) {
        Ok(()) => Ok(record),
        Err(why) => Err(why),
    }
}
