ghost use Rattle.std.specs.Prelude.{◌≡◌, ◌≢◌, ◌↔◌, IsTrue, OnOk, IfErr, MatchOption};
ghost use Rattle.log_format.specs.declared.record.Kind.{Kind};
ghost use Rattle.log_format.specs.declared.record.Why.{Why};
ghost use Rattle.log_format.specs.Format.{AllowsKind};
ghost use Rattle.log_format.specs.Spelling.{kind_code};
ghost use Rattle.log_format.specs.Table.{HasSize, HasAddress, SpanIsTabled, HasNothingElse, PassesTable, IsFirstFailed};

use crate::format::Format;
use crate::record::{Kind, Record, Why};

/// The number of a kind, its record's first byte.
pub fn code_of(kind: Kind) -> u8
    ensures { result ≡ kind_code kind }
{
    match kind {
        Kind::Read => 1,
        Kind::Write => 2,
        Kind::Lock => 3,
        Kind::Unlock => 4,
        Kind::Barrier => 5,
        Kind::Region => 6,
        Kind::Chunk => 7,
        Kind::End => 8,
        Kind::Update => 9,
    }
}

/// The format's kind of this number, if it has one.
#[inline(always)]
pub fn kind_of(format: Format, code: u8) -> Option<Kind>
    ensures { MatchOption result ((k : Kind) → AllowsKind format k → code ≢ kind_code k) (λ k. AllowsKind format k × (code ≡ kind_code k)) }
{
    if code > format.last_code() {
        return None;
    }
    match code {
        1 => Some(Kind::Read),
        2 => Some(Kind::Write),
        3 => Some(Kind::Lock),
        4 => Some(Kind::Unlock),
        5 => Some(Kind::Barrier),
        6 => Some(Kind::Region),
        7 => Some(Kind::Chunk),
        8 => Some(Kind::End),
        9 => Some(Kind::Update),
        _ => None,
    }
}

#[inline(always)]
fn is_access_size(size: u8) -> bool
    ensures { IsTrue result ↔ HasSize Kind.Read size }
{
    size == 1 || size == 2 || size == 4 || size == 8
}

#[inline(always)]
fn has_size(kind: Kind, size: u8) -> bool
    ensures { IsTrue result ↔ HasSize kind size }
{
    match kind {
        Kind::Read | Kind::Write | Kind::Update => is_access_size(size),
        Kind::Lock | Kind::Unlock | Kind::Barrier | Kind::Region | Kind::Chunk | Kind::End => size
            == 0,
    }
}

#[inline(always)]
fn has_address(r: &Record) -> bool
    requires { HasSize r.now.kind r.now.size }
    ensures { IsTrue result ↔ HasAddress r.now.kind r.now }
{
    match r.kind {
        Kind::Read | Kind::Write | Kind::Update => r.addr <= (1 << 48) - u64::from(r.size),
        Kind::Lock | Kind::Unlock => r.addr < 1 << 16,
        Kind::Barrier | Kind::Region | Kind::Chunk | Kind::End => true,
    }
}

#[inline(always)]
fn has_span(r: &Record) -> bool
    ensures { IsTrue result ↔ SpanIsTabled r.now.kind r.now }
{
    match r.kind {
        Kind::Region => 1 <= r.value && r.value <= 64,
        Kind::Read
        | Kind::Write
        | Kind::Lock
        | Kind::Unlock
        | Kind::Barrier
        | Kind::Chunk
        | Kind::End
        | Kind::Update => true,
    }
}

#[inline(always)]
fn has_nothing_else(r: &Record) -> bool
    ensures { IsTrue result ↔ HasNothingElse r.now.kind r.now }
{
    match r.kind {
        Kind::Read | Kind::Write | Kind::Update => true,
        Kind::Lock | Kind::Unlock => r.site == 0 && r.value == 0,
        Kind::Barrier | Kind::End => r.site == 0 && r.addr == 0 && r.value == 0,
        Kind::Region => r.site == 0 && r.addr == 0,
        Kind::Chunk => r.site == 0 && r.addr <= r.value,
    }
}

/// The first test of the format's table that the record, of one of its kinds, fails, if there is one.
#[inline(always)]
pub fn check(format: Format, r: &Record) -> Result<(), Why>
    requires { AllowsKind format r.now.kind }
    ensures passes { OnOk result ((w : Why) → PassesTable format r.now w) }
    ensures fails { IfErr result (λ w. IsFirstFailed format r.now w) }
{
    if !has_size(r.kind, r.size) {
        return Err(Why::Size);
    }
    if r.line == 0 {
        return Err(Why::LineZero);
    }
    if !has_address(r) {
        return Err(Why::Address);
    }
    if !has_span(r) {
        return Err(Why::Span);
    }
    if !has_nothing_else(r) {
        return Err(Why::Reserved);
    }
    Ok(())
}
