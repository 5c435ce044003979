//! Kernels of `examples/` in pairs, one that races and its mended twin: what `run`, `check` and `replay` print of each.

use crate::tests::fixtures::{Verdict, Whole, all_judged, all_run};
use command_answer::{DONE, RACES, UNCERTAIN};

const HEAT: &str =
    "# A fixed loop of two worksharing loops: the barrier at the end of each keeps its readers from its writers.
array u i64 64
array v i64 64
main {
    u[0] = 1000
    parallel 4 {
        loop t in 0 .. 3 {
            for i in 1 .. 63 {
                v[i] = (u[i-1] + 2 * u[i] + u[i+1]) / 4
            }
            for i in 1 .. 63 {
                u[i] = v[i]
            }
        }
    }
}
";

const HEAT_RACE: &str =
    "# A stencil in place: at the edge of its share a lane reads what its neighbour writes. heat.kernel has two arrays.
array u i64 64
main {
    u[0] = 1000
    parallel 4 {
        for i in 1 .. 63 {
            u[i] = (u[i-1] + 2 * u[i] + u[i+1]) / 4
        }
    }
}
";

const SUM: &str =
    "# A reduction: each lane sums its share in a variable, and adds that under a mutex.
array a i64 32
array s i64 1
main {
    loop k in 0 .. 32 { a[k] = k }
    parallel 4 {
        let mine = 0
        for i in 0 .. 32 nowait {
            mine = mine + a[i]
        }
        critical { s[0] = s[0] + mine }
    }
}
";

const SUM_RACE: &str = "# A reduction in which all lanes add to one element, and no mutex guards it.
array a i64 32
array s i64 1
main {
    loop k in 0 .. 32 { a[k] = k }
    parallel 4 {
        for i in 0 .. 32 {
            s[0] = s[0] + a[i]
        }
    }
}
";

const WAVEFRONT: &str =
    "# A wavefront: each row needs the one above it, and the barrier at the end of the loop keeps the lanes of one row together.
array g i64 64
main {
    parallel 4 {
        for i in 0 .. 8 { g[i] = 1 }
        loop d in 1 .. 8 {
            for i in 1 .. 8 {
                g[8 * d + i] = g[8 * d - 8 + i] + g[8 * d - 9 + i]
            }
        }
    }
}
";

const WAVEFRONT_RACE: &str =
    "# The same wavefront without the barriers: a lane reads the row above before its neighbour has written it.
array g i64 64
main {
    parallel 4 {
        for i in 0 .. 8 { g[i] = 1 }
        loop d in 1 .. 8 {
            for i in 1 .. 8 nowait {
                g[8 * d + i] = g[8 * d - 8 + i] + g[8 * d - 9 + i]
            }
        }
    }
}
";

const PREFIX_SUM: &str =
    "# Prefix sums in three steps (Hillis and Steele 1986): each step reads one array and writes the other.
array a i64 8
array b i64 8
main {
    parallel 4 {
        let step = 1
        for i in 0 .. 8 { a[i] = i + 1 }
        loop k in 0 .. 3 {
            for i in 0 .. 8 {
                if i < step { b[i] = a[i] } else { b[i] = a[i] + a[i-step] }
            }
            for i in 0 .. 8 { a[i] = b[i] }
            step = 2 * step
        }
    }
}
";

const PREFIX_SUM_RACE: &str =
    "# The same prefix sums in place: one lane adds what another has added to already.
array a i64 8
main {
    parallel 4 {
        let step = 1
        for i in 0 .. 8 { a[i] = i + 1 }
        loop k in 0 .. 3 {
            for i in 0 .. 8 {
                if i >= step { a[i] = a[i] + a[i-step] }
            }
            step = 2 * step
        }
    }
}
";

const NESTED: &str =
    "# A lane begins a region of its own, and a barrier orders it before the other lane's store.
array a i64 4
main {
    parallel 2 {
        if tid == 0 {
            parallel 2 {
                a[tid] = 1
            }
        }
        barrier
        if tid == 1 {
            a[1] = 2
        }
    }
}
";

const NESTED_RACE: &str =
    "# Like nested.kernel, but no barrier orders the lanes of the inner region before the other lane's store.
array a i64 4
main {
    parallel 2 {
        if tid == 0 {
            parallel 2 {
                a[tid] = 1
            }
        }
        if tid == 1 {
            a[1] = 2
        }
    }
}
";

const GATHER: &str =
    "# Lanes draw chunks until none is left, meet, and then each reads all that was written.
array a i64 12
array s i64 3
main {
    parallel 3 {
        for i in 0 .. 12 dynamic 4 { a[i] = i }
        let sum = 0
        loop k in 0 .. 12 { sum = sum + a[k] }
        s[tid] = sum
    }
}
";

const GATHER_RACE: &str =
    "# Like gather.kernel, but no lane waits for the chunks that others have drawn.
array a i64 12
array s i64 3
main {
    parallel 3 {
        for i in 0 .. 12 dynamic 4 nowait { a[i] = i }
        let sum = 0
        loop k in 0 .. 12 { sum = sum + a[k] }
        s[tid] = sum
    }
}
";

const HISTOGRAM: &str = "# A histogram whose counts a mutex guards.
array a i64 16
array h i32 4
mutex counts
main {
    loop k in 0 .. 16 { a[k] = k * k }
    parallel 4 {
        for i in 0 .. 16 {
            critical counts { h[a[i] % 4] = h[a[i] % 4] + 1 }
        }
    }
}
";

const HISTOGRAM_RACE: &str = "# A histogram in which two lanes may count the same value at once.
array a i64 16
array h i32 4
main {
    loop k in 0 .. 16 { a[k] = k * k }
    parallel 4 {
        for i in 0 .. 16 {
            h[a[i] % 4] = h[a[i] % 4] + 1
        }
    }
}
";

const HISTOGRAM_ATOMIC: &str = "# A histogram whose counts are updated in one step each.
array a i64 16
array h i32 4
main {
    loop k in 0 .. 16 { a[k] = k * k }
    parallel 4 {
        for i in 0 .. 16 {
            atomic h[a[i] % 4] += 1
        }
    }
}
";

const COUNTER_ATOMIC: &str =
    "# Whichever lane draws an iteration adds its number to one counter, in one step.
array c i64 1
main {
    parallel 4 {
        for i in 0 .. 10 dynamic 2 {
            atomic c[0] += i
        }
    }
}
";

const SHIFT_MENDED: &str =
    "# Like shift.kernel, but into another array, so that no lane reads what another writes.
array a i64 9
array b i64 9
main {
    parallel 2 {
        for i in 0 .. 8 static 4 {
            b[i+1] = a[i]
        }
    }
}
";

const NO_RACE: &str = "races 0\n";

const MENDED: &[Whole<'static>] = &[
    (
        HEAT,
        "tasks 5\nrecords 1147\nsum u 1592\nsum v 592\n",
        DONE,
        NO_RACE,
    ),
    (
        SUM,
        "tasks 5\nrecords 86\nsum a 496\nsum s 496\n",
        DONE,
        NO_RACE,
    ),
    (
        WAVEFRONT,
        "tasks 5\nrecords 193\nsum g 1144\n",
        DONE,
        NO_RACE,
    ),
    (
        PREFIX_SUM,
        "tasks 5\nrecords 155\nsum a 120\nsum b 120\n",
        DONE,
        NO_RACE,
    ),
    (NESTED, "tasks 5\nrecords 12\nsum a 3\n", DONE, NO_RACE),
    (
        GATHER,
        "tasks 4\nrecords 65\nsum a 66\nsum s 198\n",
        DONE,
        NO_RACE,
    ),
    (
        HISTOGRAM,
        "tasks 5\nrecords 122\nsum a 1240\nsum h 16\n",
        DONE,
        NO_RACE,
    ),
    (
        HISTOGRAM_ATOMIC,
        "tasks 5\nrecords 58\nsum a 1240\nsum h 16\n",
        DONE,
        NO_RACE,
    ),
    (
        COUNTER_ATOMIC,
        "tasks 5\nrecords 29\nsum c 45\n",
        DONE,
        NO_RACE,
    ),
    (
        SHIFT_MENDED,
        "tasks 3\nrecords 22\nsum a 0\nsum b 0\n",
        DONE,
        NO_RACE,
    ),
];

// What they print isn't the same each time.
const RACING: &[Whole<'static>] = &[
    (HEAT_RACE, "...", RACES, "race 7 7\nraces 1\n"),
    (SUM_RACE, "...", RACES, "race 8 8\nraces 1\n"),
    (WAVEFRONT_RACE, "...", RACES, "race 8 8\nraces 1\n"),
    (PREFIX_SUM_RACE, "...", RACES, "race 9 9\nraces 1\n"),
    (NESTED_RACE, "...", RACES, "race 7 11\nraces 1\n"),
    (GATHER_RACE, "...", RACES, "race 6 8\nraces 1\n"),
    (HISTOGRAM_RACE, "...", RACES, "race 8 8\nraces 1\n"),
];

// What `certify` prints of them.
const VERDICTS: &[Verdict<'static>] = &[
    (
        HEAT,
        DONE,
        "certain\ntasks 5\nrecords 1147\nsum u 1592\nsum v 592\n",
    ),
    (
        HEAT_RACE,
        UNCERTAIN,
        "race 7 7\nraces 1\nuncertain: races\n",
    ),
    (SUM, UNCERTAIN, "uncertain: construct line 11\n"),
    (SUM_RACE, UNCERTAIN, "race 8 8\nraces 1\nuncertain: races\n"),
    (
        WAVEFRONT,
        DONE,
        "certain\ntasks 5\nrecords 193\nsum g 1144\n",
    ),
    (
        WAVEFRONT_RACE,
        UNCERTAIN,
        "race 8 8\nraces 1\nuncertain: races\n",
    ),
    (
        PREFIX_SUM,
        DONE,
        "certain\ntasks 5\nrecords 155\nsum a 120\nsum b 120\n",
    ),
    (
        PREFIX_SUM_RACE,
        UNCERTAIN,
        "race 9 9\nraces 1\nuncertain: races\n",
    ),
    (NESTED, DONE, "certain\ntasks 5\nrecords 12\nsum a 3\n"),
    (
        NESTED_RACE,
        UNCERTAIN,
        "race 7 11\nraces 1\nuncertain: races\n",
    ),
    (GATHER, UNCERTAIN, "uncertain: construct line 6\n"),
    (GATHER_RACE, UNCERTAIN, "uncertain: construct line 6\n"),
    (HISTOGRAM, UNCERTAIN, "uncertain: construct line 9\n"),
    (
        HISTOGRAM_RACE,
        UNCERTAIN,
        "race 8 8\nraces 1\nuncertain: races\n",
    ),
    (HISTOGRAM_ATOMIC, UNCERTAIN, "uncertain: construct line 8\n"),
    (COUNTER_ATOMIC, UNCERTAIN, "uncertain: construct line 5\n"),
    (
        SHIFT_MENDED,
        DONE,
        "certain\ntasks 3\nrecords 22\nsum a 0\nsum b 0\n",
    ),
];

#[test]
fn each_races_or_not_and_has_its_verdict(rt: HostRuntime) {
    all_run(&rt, rt.alloc(), "4", MENDED);
    all_run(&rt, rt.alloc(), "4", RACING);
    all_judged(&rt, rt.alloc(), VERDICTS);
}
