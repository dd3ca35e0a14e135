mod asking;
mod clients;
mod lending;
mod meeting;
mod revocation;
mod server;
mod turns;
mod workers;
