mod generated;
mod labels;
mod replays;
mod segments;
mod together;
mod upgrades;
mod walks;
mod witnesses;
