mod logs;
mod parcels;
mod words;
mod writers;
