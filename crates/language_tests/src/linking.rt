mod bodies;
mod emissions;
mod faults;
mod links;
mod orders;
