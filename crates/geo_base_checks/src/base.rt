mod lattice;
mod random;
mod stamp;
mod text;
mod versions;
