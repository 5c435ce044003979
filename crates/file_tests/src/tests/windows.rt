//! Windows over files that are longer, missing, read in short pieces, or not read at all.
ghost use Rattle.std.specs.Prelude.{◌≡◌, ◌+◌, ◌<◌, ◌≤◌};

use crate::tests::support::folder_of;
use memory_environment::ShortReads;
use std::alloc::Global;
use std::process::Abort;
use sw_base::{Folder, Trouble, Window};

// Whether these bytes are ahead.
fn has(window: &Window, ahead: &[u8]) -> bool {
    window.ahead() == ahead
}

// Whether they are once the window is filled from the named file until so many are, or the file ends.
fn shows<F: Folder>(
    alloc: Global,
    window: &mut Window,
    folder: &mut F,
    name: &str,
    count: usize,
    ahead: &[u8],
) -> bool
    ensures { window.new.place ≡ window.old.place }
{
    window.fill(alloc, folder, name, count).is_ok() && has(window, ahead)
}

// Passes so many bytes, where they are ahead.
fn skips(window: &mut Window, count: usize) -> bool
    requires place { window.old.place < 100 }
    requires few { count < 100 }
    ensures { window.new.place ≤ window.old.place + count }
{
    let is_there = count <= window.ahead().len();
    if is_there {
        window.skip(count);
    }
    is_there
}

#[test]
fn a_file_longer_than_a_window_comes_in_order(rt: HostRuntime) {
    let alloc = rt.alloc();
    let mut folder = folder_of(alloc, "name", b"abcdefgh").expect(&rt, "memory");
    let mut window = Window::new(alloc, 3).expect(&rt, "memory");
    let told = [
        has(&window, b""),
        shows(alloc, &mut window, &mut folder, "name", 2, b"abc"),
        skips(&mut window, 2),
        has(&window, b"c"),
        shows(alloc, &mut window, &mut folder, "name", 4, b"cdef"),
        skips(&mut window, 4),
        shows(alloc, &mut window, &mut folder, "name", 9, b"gh"),
        skips(&mut window, 2),
        shows(alloc, &mut window, &mut folder, "name", 1, b""),
    ];
    assert!(rt; told == [true; 9], "{told:?}");
}

#[test]
fn a_file_that_is_not_there_ends_at_once(rt: HostRuntime) {
    let alloc = rt.alloc();
    let mut folder = folder_of(alloc, "name", b"ab").expect(&rt, "memory");
    let mut window = Window::new(alloc, 1).expect(&rt, "memory");
    let told = [
        shows(alloc, &mut window, &mut folder, "none", 1, b""),
        shows(alloc, &mut window, &mut folder, "name", 0, b""),
    ];
    assert!(rt; told == [true; 2], "{told:?}");
}

fn restarted(window: &mut Window) -> bool {
    window.restart();
    window.ahead().is_empty()
}

#[test]
fn a_window_starts_again_at_the_front(rt: HostRuntime) {
    let alloc = rt.alloc();
    let mut folder = folder_of(alloc, "name", b"abcdefgh").expect(&rt, "memory");
    folder.hold("other", b"uvwxyz").expect(&rt, "memory");
    let mut window = Window::new(alloc, 4).expect(&rt, "memory");
    let told = [
        shows(alloc, &mut window, &mut folder, "name", 4, b"abcd"),
        skips(&mut window, 3),
        restarted(&mut window),
        shows(alloc, &mut window, &mut folder, "other", 2, b"uvwx"),
    ];
    assert!(rt; told == [true; 4], "{told:?}");
}

#[test]
fn a_short_read_is_gone_on_with(rt: HostRuntime) {
    let alloc = rt.alloc();
    let folder = folder_of(alloc, "name", b"abcdefghijklmnopqr").expect(&rt, "memory");
    let mut folder = ShortReads { folder };
    let mut window = Window::new(alloc, 16).expect(&rt, "memory");
    let long = b"abcdefghijklmno";
    let told = [
        shows(alloc, &mut window, &mut folder, "name", 11, long),
        skips(&mut window, 11),
        shows(alloc, &mut window, &mut folder, "name", 5, b"lmnopqr"),
        shows(alloc, &mut window, &mut folder, "name", 8, b"lmnopqr"),
    ];
    assert!(rt; told == [true; 4], "{told:?}");
}

// Whether a fill of so many bytes fails, and these are ahead then.
fn fails<F: Folder>(
    alloc: Global,
    window: &mut Window,
    folder: &mut F,
    count: usize,
    ahead: &[u8],
) -> bool
    ensures { window.new.place ≡ window.old.place }
{
    let answer = window.fill(alloc, folder, "name", count);
    answer == Err(Trouble::Failed) && has(window, ahead)
}

#[test]
fn a_read_that_fails_loses_nothing(rt: HostRuntime) {
    let alloc = rt.alloc();
    let mut folder = folder_of(alloc, "name", b"abcdefghij").expect(&rt, "memory");
    folder.fail(&[2, 3]).expect(&rt, "memory");
    let mut folder = ShortReads { folder };
    let mut window = Window::new(alloc, 8).expect(&rt, "memory");
    let told = [
        fails(alloc, &mut window, &mut folder, 8, b"abcde"),
        skips(&mut window, 3),
        fails(alloc, &mut window, &mut folder, 7, b"de"),
        shows(alloc, &mut window, &mut folder, "name", 7, b"defghij"),
    ];
    assert!(rt; told == [true; 4], "{told:?}");
}

// Whether a file of these bytes begins with the header, and how many bytes are ahead then.
fn header_passed(rt: &impl Abort, alloc: Global, bytes: &[u8]) -> (bool, usize) {
    let mut folder = folder_of(alloc, "name", bytes).expect(rt, "memory");
    let mut window = Window::new(alloc, 10).expect(rt, "memory");
    let passed = window
        .pass_header(alloc, &mut folder, "name", b"SWLOG001")
        .expect(rt, "bytes");
    (passed, window.ahead().len())
}

// The bytes of a file, whether they begin with the header, and how many are ahead then.
const HEADERS: [(&[u8], bool, usize); 5] = [
    (b"SWLOG001", true, 0),
    (b"SWLOG001abc", true, 2),
    (b"SWLOG00", false, 7),
    (b"SWLOG002", false, 8),
    (b"", false, 0),
];

#[test]
fn a_header_is_passed_where_all_of_it_is_there(rt: HostRuntime) {
    for (bytes, passed, ahead) in HEADERS {
        let found = header_passed(&rt, rt.alloc(), bytes);
        assert!(rt; found == (passed, ahead), "of {bytes:?}");
    }
}
