mod connections;
mod devices;
