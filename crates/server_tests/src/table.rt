mod closing;
mod commands;
mod receipts;
mod server;
