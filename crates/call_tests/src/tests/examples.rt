//! The kernels of `examples/`, and what the README says that the program prints of them.

use crate::tests::fixtures::{Case, EMPTY, all_pass};
use command_answer::{DIFFERS, DONE, KERNEL_STOPPED, RACES, UNCERTAIN};

const COUNT: &str =
    "# Each lane adds 1 to every second element. No two lanes touch the same element.
array a i64 8
main {
    parallel 2 {
        for i in 0 .. 8 static 1 {
            a[i] = a[i] + 1
        }
    }
}
";

const SHIFT: &str =
    "# Each element is shifted by one. Lane 1 reads the element that lane 0 writes last.
array a i64 9
main {
    parallel 2 {
        for i in 0 .. 8 static 4 {
            a[i+1] = a[i]
        }
    }
}
";

const BEYOND: &str = "# The loop runs past the end of the array, where lane 1 stops.
array a i64 4
main {
    parallel 2 {
        for i in 0 .. 8 static 4 {
            a[i] = 1
        }
    }
}
";

// What `show` prints first.
const FIRST_LINES: &str = "log t.swl records 2
1 region 2 line 4
2 end line 9
log t-0.0.swl records 10
1 read 8 site 1 line 6 addr 4096 value 0
2 write 8 site 0 line 6 addr 4104 value 0
...";

const EXAMPLES: &[Case<'static>] = &[Case {
    held: &[
        ("shift.kernel", SHIFT),
        ("count.kernel", COUNT),
        ("beyond.kernel", BEYOND),
    ],
    asked: &[
        (
            &["run", "shift.kernel", "logs", "4096"],
            DONE,
            "tasks 3\nrecords 22\nsum a 0\n",
        ),
        (&["check", "logs", "2"], RACES, "race 6 6\nraces 1\n"),
        (
            &["run", "count.kernel", "counted", "4096"],
            DONE,
            "tasks 3\nrecords 22\nsum a 8\n",
        ),
        (&["check", "counted", "2"], DONE, "races 0\n"),
        (&["replay", "count.kernel", "counted"], DONE, "same\n"),
        (
            &["replay", "shift.kernel", "counted"],
            DIFFERS,
            "differs t-0.0.swl record 2\n",
        ),
        (
            &["run", "beyond.kernel", "stopped", "4096"],
            KERNEL_STOPPED,
            "stopped t-0.1.swl line 6: Index\n",
        ),
        (&["show", "logs"], DONE, FIRST_LINES),
        (
            &["certify", "shift.kernel"],
            UNCERTAIN,
            "race 6 6\nraces 1\nuncertain: races\n",
        ),
        (
            &["certify", "count.kernel"],
            DONE,
            "certain\ntasks 3\nrecords 22\nsum a 8\n",
        ),
        (
            &["certify", "beyond.kernel"],
            UNCERTAIN,
            "uncertain: stopped t-0.1.swl line 6: Index\n",
        ),
    ],
    left: &[("stopped/index.swi", None)],
    ..EMPTY
}];

#[test]
fn the_examples_print_what_the_readme_says(rt: HostRuntime) {
    all_pass(&rt, rt.alloc(), EXAMPLES);
}
