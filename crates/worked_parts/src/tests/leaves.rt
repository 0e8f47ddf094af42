// What no clause says of the parts of the fast arena.
mod contexts;
mod places;
