mod runs;
mod stories;
