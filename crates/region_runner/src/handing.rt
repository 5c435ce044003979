//! The hands of a team: split off for a phase, and joined after it.
ghost use Rattle.std.specs.Prelude.{◌≡◌, ◌<◌, ◌≤◌, ℕ, true, false, length, map, slice_index_or};
ghost use Rattle.shared_words.specs.Handles.{Belongs, with_view};
ghost use Rattle.shared_words.specs.Views.{IsAtRest};
ghost use Rattle.region_runner.specs.Hands.{IsLaneHand, joined_with, lane_hand, parted_for};
ghost use Rattle.region_runner.specs.Meeting.{MeetsSo, PartsHands};
ghost use Rattle.region_runner.specs.Stands.{AllGo};
ghost use Rattle.lane_runner.specs.Lane.{IsWithoutHand, hand_view, with_hand};

use lane_runner::Lane;
use shared_words::{Hand, Words};
use sw_base::Log;

// Each lane of the team gets a hand that is split off this one.
fn split_hands<L: Log>(words: &Words, hand: &mut Hand, lanes: &mut [Lane<L>], span: u16)
    requires belongs { Belongs hand.old words.now.table }
    requires count { length lanes.old ≡ span }
    ensures hand { hand.new ≡ with_view hand.old (parted_for 0 span span hand.old.view) }
    ensures rests { 1 ≤ span → IsAtRest hand.old.view }
    ensures count { length lanes.new ≡ span }
    ensures given { (i : ℕ) (d : _) → i < span → slice_index_or lanes.new i d ≡ with_hand (slice_index_or lanes.old i d) (lane_hand hand.old i) }
{
    let mut index = 0u16;
    for lane in lanes.iter_mut() {
        let own = words.split(hand, index, span);
        lane.trade(own);
        index += 1;
    }
}

// The hands of all lanes are joined to this one, in the order of the lanes.
fn join_hands<L: Log>(words: &Words, hand: &mut Hand, lanes: &mut [Lane<L>])
    requires belongs { Belongs hand.old words.now.table }
    requires home { (i : ℕ) (d : _) → i < length lanes.old → IsLaneHand words.now.table hand.old.view.name (slice_index_or lanes.old i d).hand }
    ensures hand { hand.new ≡ with_view hand.old (joined_with (map hand_view lanes.old) hand.old.view) }
    ensures count { length lanes.new ≡ length lanes.old }
    ensures same { (i : ℕ) (d : _) → i < length lanes.old → IsWithoutHand (slice_index_or lanes.old i d) (slice_index_or lanes.new i d) }
{
    for lane in lanes.iter_mut() {
        let own = lane.trade(Hand::blank());
        words.join(hand, own);
    }
}

// Whether each lane goes on.
fn all_go<L: Log>(lanes: &[Lane<L>]) -> bool
    ensures all { result ≡ true → AllGo lanes.now }
    ensures some { result ≡ false → AllGo lanes.now → ⊥ }
{
    for lane in lanes {
        if !lane.goes() {
            return false;
        }
    }
    true
}

// The lanes of a team are parted for a phase.
pub(crate) fn part_lanes<L: Log>(
    words: &Words,
    hand: &mut Hand,
    lanes: &mut Vec<Lane<L>>,
    span: u16,
)
    requires belongs { Belongs hand.old words.now.table }
    requires count { length lanes.old.items ≡ span }
    ensures parts { PartsHands span hand.old hand.new lanes.old.items lanes.new.items }
{
    split_hands(words, hand, lanes, span);
}

// The lanes of a team meet after a phase. Whether each goes on.
pub(crate) fn meet_lanes<L: Log>(words: &Words, hand: &mut Hand, lanes: &mut Vec<Lane<L>>) -> bool
    requires belongs { Belongs hand.old words.now.table }
    requires home { (i : ℕ) (d : _) → i < length lanes.old.items → IsLaneHand words.now.table hand.old.view.name (slice_index_or lanes.old.items i d).hand }
    ensures meets { MeetsSo result hand.old hand.new lanes.old.items lanes.new.items }
{
    join_hands(words, hand, lanes);
    all_go(lanes)
}
