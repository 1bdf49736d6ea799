mod answers;
mod devices;
mod grammar;
mod memcache;
mod show;
mod telling;
