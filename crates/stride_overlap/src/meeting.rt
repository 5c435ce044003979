ghost use Rattle.std.specs.Prelude.{◌≡◌, ℕ, ◌^◌, ◌<◌, ◌≤◌, IfSome, IfNone};
ghost use Rattle.stride_overlap.specs.Meeting.{Meets};

/// A place in each of two runs, from 0.
#[derive(Clone, Copy)]
pub struct Places {
    pub first: u64,
    pub second: u64,
}

/// The least places at which the multiple of the stride is from `low` to `high` above that of the other stride.
pub fn least_meeting(stride: u64, other: u64, low: u64, high: u64) -> Option<Places>
    requires window { low ≤ high }
    requires strides { (stride < 2 ^ 48) × (other < 2 ^ 48) }
    requires small { high < 2 ^ 50 }
    ensures found { IfSome result (λ at. Meets stride other low high at.first at.second) }
    ensures least { IfSome result (λ at. (i j : ℕ) → Meets stride other low high i j → (at.first ≤ i) × (at.second ≤ j)) }
    ensures none { IfNone result ((i j : ℕ) → Meets stride other low high i j → ⊥) }
    ensures within { IfSome result (λ at. high < other → at.first < other) }
{
    if low == 0 {
        return Some(Places {
            first: 0,
            second: 0,
        });
    }
    if stride == 0 {
        return None;
    }
    let ahead = (low - 1) / stride + 1;
    let reach = ahead * stride;
    if reach <= high {
        return Some(Places {
            first: ahead,
            second: 0,
        });
    }
    // No multiple of the stride is in the window. So the other's multiples are looked for in what is left of it.
    match least_meeting(other % stride, stride, reach - high, reach - low) {
        Some(rest) => Some(Places {
            first: rest.second + other / stride * rest.first + ahead,
            second: rest.first,
        }),
        None => None,
    }
}
