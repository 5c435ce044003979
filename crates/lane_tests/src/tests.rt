mod loops;
mod mutexes;
mod one_lane;
mod phases;
mod regions;
mod statements;
mod support;
mod updates;
