pub mod loads;
mod programs;
mod reactions;
