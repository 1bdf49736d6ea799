mod changes;
mod frames;
mod show;
