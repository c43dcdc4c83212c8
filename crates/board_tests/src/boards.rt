mod closed;
mod contention;
mod helpers;
mod seats;
mod slots;
mod threads;
