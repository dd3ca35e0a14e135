mod claims;
mod labs;
mod lines;
mod modules;
mod searching;
mod texts;
