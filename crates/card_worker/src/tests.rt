mod groups;
mod runs;
