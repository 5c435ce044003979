use log_format::{FORMAT, Format, Kind, Record, Why, decode, decode_as, decode_old, encode};

/// The bytes of three groups of eight.
fn joined(groups: [u64; 3]) -> [u8; 24] {
    let mut bytes = [0; 24];
    bytes[0..8].copy_from_slice(&groups[0].to_be_bytes());
    bytes[8..16].copy_from_slice(&groups[1].to_be_bytes());
    bytes[16..24].copy_from_slice(&groups[2].to_be_bytes());
    bytes
}

fn access(kind: Kind, size: u8, site: u16, line: u32, addr: u64, value: u64) -> Record {
    Record {
        kind,
        size,
        site,
        line,
        addr,
        value,
    }
}

/// The bytes of the format's vectors, and what they are.
fn vectors() -> [([u64; 3], Result<Record, Why>); 35] {
    [
        (
            [0x0108_0001_0000_0005, 0x1000, 0],
            Ok(access(Kind::Read, 8, 1, 5, 4096, 0)),
        ),
        (
            [0x0201_0000_0000_0001, 0x1000, 0xffff_ffff_ffff_ffc8],
            Ok(access(Kind::Write, 1, 0, 1, 4096, u64::MAX - 55)),
        ),
        (
            [0x0108_0000_0000_0001, 0xffff_ffff_fff8, 0],
            Ok(access(Kind::Read, 8, 0, 1, (1 << 48) - 8, 0)),
        ),
        (
            [0x0108_0000_0000_0001, 0xffff_ffff_fff9, 0],
            Err(Why::Address),
        ),
        (
            [0x0908_0000_0000_0001, 0, 0],
            Ok(access(Kind::Update, 8, 0, 1, 0, 0)),
        ),
        // writes and updates end at 2^48, too, and the last mutex is 2^16 - 1
        (
            [0x0208_0000_0000_0001, 0xffff_ffff_fff8, 0],
            Ok(access(Kind::Write, 8, 0, 1, (1 << 48) - 8, 0)),
        ),
        (
            [0x0908_0000_0000_0001, 0xffff_ffff_fff8, 0],
            Ok(access(Kind::Update, 8, 0, 1, (1 << 48) - 8, 0)),
        ),
        (
            [0x0400_0000_0000_0001, 65_535, 0],
            Ok(access(Kind::Unlock, 0, 0, 1, 65_535, 0)),
        ),
        ([0x0400_0000_0000_0001, 65_536, 0], Err(Why::Address)),
        ([0x0a08_0000_0000_0001, 0, 0], Err(Why::Kind)),
        // accesses of 3, 0, 16 and 6 bytes
        ([0x0103_0000_0000_0001, 0, 0], Err(Why::Size)),
        ([0x0100_0000_0000_0001, 0, 0], Err(Why::Size)),
        ([0x0210_0000_0000_0001, 0, 0], Err(Why::Size)),
        ([0x0906_0000_0000_0001, 0, 0], Err(Why::Size)),
        // what is no access has no bytes
        ([0x0301_0000_0000_0001, 1, 0], Err(Why::Size)),
        ([0x0401_0000_0000_0001, 1, 0], Err(Why::Size)),
        ([0x0501_0000_0000_0001, 0, 0], Err(Why::Size)),
        ([0x0701_0000_0000_0001, 0, 0], Err(Why::Size)),
        ([0x0801_0000_0000_0001, 0, 0], Err(Why::Size)),
        ([0x0800_0000_0000_0000, 0, 0], Err(Why::LineZero)),
        ([0x0600_0000_0000_0001, 0, 0], Err(Why::Span)),
        ([0x0600_0000_0000_0001, 0, 0x41], Err(Why::Span)),
        ([0x0500_0000_0000_0001, 0, 1], Err(Why::Reserved)),
        ([0x0700_0000_0000_0001, 3, 2], Err(Why::Reserved)),
        // a site alone
        ([0x0300_0001_0000_0001, 1, 0], Err(Why::Reserved)),
        ([0x0400_0001_0000_0001, 1, 0], Err(Why::Reserved)),
        ([0x0500_0001_0000_0001, 0, 0], Err(Why::Reserved)),
        ([0x0600_0001_0000_0001, 0, 2], Err(Why::Reserved)),
        ([0x0700_0001_0000_0001, 0, 0], Err(Why::Reserved)),
        ([0x0800_0001_0000_0001, 0, 0], Err(Why::Reserved)),
        // a value alone
        ([0x0300_0000_0000_0001, 1, 1], Err(Why::Reserved)),
        ([0x0400_0000_0000_0001, 1, 1], Err(Why::Reserved)),
        ([0x0800_0000_0000_0001, 0, 1], Err(Why::Reserved)),
        // an address alone
        ([0x0600_0000_0000_0001, 1, 2], Err(Why::Reserved)),
        ([0x0800_0000_0000_0001, 1, 0], Err(Why::Reserved)),
    ]
}

#[test]
fn decodes_the_vectors(rt: HostRuntime) {
    for (groups, want) in vectors() {
        let bytes = joined(groups);
        let found = [decode(&bytes), decode_as(FORMAT, &bytes)];
        assert!(rt; found == [want, want], "of {groups:?}");
    }
}

// What groups that are this in the second format are in the first: the kind is tested first, and there is no kind 9.
fn without_updates(groups: [u64; 3], second: Result<Record, Why>) -> Result<Record, Why> {
    if groups[0] >> 56 == 9 {
        Err(Why::Kind)
    } else {
        second
    }
}

#[test]
fn the_first_format_has_no_updates(rt: HostRuntime) {
    for (groups, second) in vectors() {
        let bytes = joined(groups);
        let found = [decode_old(&bytes), decode_as(Format::First, &bytes)];
        assert!(rt;
            found == [without_updates(groups, second); 2],
            "of {groups:?}"
        );
    }
}

#[test]
fn the_headers_tell_the_format(rt: HostRuntime) {
    let headers = [
        (Format::First, b"SWLOG001", b"SWIDX001", None, 8),
        (FORMAT, b"SWLOG002", b"SWIDX002", Some(*b"SWIDX001"), 9),
    ];
    for (format, log, index, older, last) in headers {
        assert!(rt; format.log_header() == *log && format.index_header() == *index);
        assert!(rt; format.older_header() == older && format.last_code() == last);
    }
}

#[test]
fn encodes_what_the_vectors_spell(rt: HostRuntime) {
    for (groups, _) in vectors() {
        let bytes = joined(groups);
        if let Ok(record) = decode(&bytes) {
            assert!(rt; encode(&record) == bytes, "{bytes:?}");
        }
    }
}

#[test]
fn the_first_of_many_faults_is_told(rt: HostRuntime) {
    let table = [
        ([0x0a03_0001_0000_0000, u64::MAX, 65], Why::Kind),
        ([0x0903_0001_0000_0000, u64::MAX, 65], Why::Size),
        ([0x0908_0000_0000_0001, 0xffff_ffff_fff9, 65], Why::Address),
        ([0x0103_0001_0000_0000, u64::MAX, 65], Why::Size),
        ([0x0108_0001_0000_0000, u64::MAX, 65], Why::LineZero),
        ([0x0601_0001_0000_0000, 1, 65], Why::Size),
        ([0x0600_0001_0000_0000, 1, 65], Why::LineZero),
        ([0x0600_0001_0000_0001, 1, 65], Why::Span),
        ([0x0600_0001_0000_0001, 1, 64], Why::Reserved),
        ([0x0300_0001_0000_0001, 65_536, 1], Why::Address),
        ([0x0300_0001_0000_0001, 65_535, 1], Why::Reserved),
    ];
    for (groups, want) in table {
        assert!(rt; decode(&joined(groups)) == Err(want), "of {groups:?}");
    }
}
