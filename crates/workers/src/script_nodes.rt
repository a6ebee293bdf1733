// The nodes that a script can name: those on which its clients may make calls.
mod laws;
mod nodes;

pub use laws::calls_are_on_named_nodes;
pub use nodes::named;
