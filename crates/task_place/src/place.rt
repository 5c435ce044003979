//! The elements of a kernel's arrays, and where a task runs.
ghost use Rattle.std.specs.Prelude.{◌≡◌, ◌+◌, ◌*◌, ◌<◌, ℕ, MatchOption, None};
ghost use Rattle.kernel_syntax.specs.Layout.{ArePlaced, elements};
ghost use Rattle.kernel_model.specs.State.{event};
ghost use Rattle.kernel_model.specs.Value.{access, element_at};
ghost use Rattle.task_place.specs.Placing.{AreLaidOut, HasLane, IsElement, meant};

use kernel_syntax::Array;
use log_format::{Kind, Record};
use std::marker::Model;

/// An element: its word, its address and its bytes.
#[derive(Clone, Copy)]
pub struct Element {
    pub word: usize,
    pub addr: u64,
    pub width: u8,
}

/// The record of an access.
pub fn access(kind: Kind, element: &Element, line: u32, site: u16, value: i64) -> Record
    ensures { result ≡ access kind (meant element.now) site line value }
{
    Record {
        kind,
        size: element.width,
        site,
        line,
        addr: element.addr,
        value: value.cast_unsigned(),
    }
}

/// The record of a step that is no access.
pub fn event(kind: Kind, line: u32, addr: u64, value: u64) -> Record
    ensures { result ≡ event kind line addr value }
{
    Record {
        kind,
        size: 0,
        site: 0,
        line,
        addr,
        value,
    }
}

// An element of an array, by its number.
fn element_of(array: &Array, index: u64) -> Element
    requires within { index < array.now.count }
    requires fits { array.now.first + array.now.count < 2147483648 }
    requires ends { array.now.base + array.now.count * array.now.width < 1152921504606846976 }
    ensures word { result.word ≡ array.now.first + index }
    ensures addr { result.addr ≡ array.now.base + index * array.now.width }
    ensures width { result.width ≡ array.now.width }
{
    Element {
        word: array.first as usize + index as usize,
        addr: array.base + index * u64::from(array.width),
        width: array.width,
    }
}

/// The element of an array at an index. None outside the array.
pub fn element_in(arrays: &[Array], array: u32, index: i64) -> Option<Element>
    requires { AreLaidOut arrays.now }
    ensures { (words : ℕ) → ArePlaced arrays.now words → MatchOption result (element_at arrays.now array index ≡ None) (IsElement arrays.now words (element_at arrays.now array index)) }
{
    let place = arrays.get(array as usize)?;
    if index < 0 {
        return None;
    }
    let number = index.unsigned_abs();
    if u64::from(place.count) <= number {
        return None;
    }
    Some(element_of(place, number))
}

/// Where a task runs: the kernel's arrays, and its lane among the lanes of its team.
#[derive(Drop)]
pub struct TaskPlace<'a> {
    arrays: &'a [Array],
    lane: u16,
    span: u16,
}

impl<'a> Model for TaskPlace<'a> {
    ghost use Rattle.kernel_model.specs.Value.{Site};
    ghost use Rattle.task_place.specs.Placing.{HasLane};

    ghost Value = { Site };

    ghost view = { λ p. record { arrays = p.arrays.now; lane = p.lane; span = p.span } };

    ghost invariant = { λ p. HasLane (record { arrays = p.arrays.now; lane = p.lane; span = p.span }) };
}

impl<'a> TaskPlace<'a> {
    pub fn new(arrays: &'a [Array], lane: u16, span: u16) -> TaskPlace<'a>
        requires { HasLane (record { arrays = arrays.now; lane = lane; span = span }) }
        ensures { result ≡ record { arrays = arrays.now; lane = lane; span = span } }
    {
        TaskPlace { arrays, lane, span }
    }

    /// The lane's number in its team.
    pub fn lane(&self) -> u16
        ensures { result ≡ self.now.lane }
    {
        self.lane
    }

    /// How many lanes the team has.
    pub fn span(&self) -> u16
        ensures span { result ≡ self.now.span }
        ensures within { self.now.lane < result }
    {
        self.span
    }

    /// The element of an array at an index. None outside the array.
    pub fn element(&self, array: u32, index: i64) -> Option<Element>
        ensures { MatchOption result (element_at self.now.arrays array index ≡ None) (IsElement self.now.arrays (elements self.now.arrays) (element_at self.now.arrays array index)) }
    {
        element_in(self.arrays, array, index)
    }
}
