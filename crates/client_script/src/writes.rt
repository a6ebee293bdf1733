// What one client writes.
ghost use Rattle.std.specs.Prelude.{◌≡◌, ◌<◌, ◌++◌, ◌∷◌, [], length, OnOk, OnErr, slice_index_or};

use std::alloc::{AllocFailed, Global};
use std::marker::Model;

/// The writes of one client, in the order of their lines. A contract sees the list of their bytes.
#[derive(Debug, Drop)]
pub struct ClientWrites {
    all: Vec<Vec<u8>>,
}

impl Model for ClientWrites {
    ghost use Rattle.std.specs.Prelude.{List, ℕ, map};

    ghost Value = { List (List ℕ) };

    ghost view = { λ w. map (λ bytes. bytes.items) w.all.items };
}

impl ClientWrites {
    /// No write. No memory is taken.
    pub fn new(alloc: Global) -> ClientWrites
        ensures { result ≡ [] }
    {
        ClientWrites {
            all: Vec::new(alloc),
        }
    }

    /// How many writes there are.
    pub fn len(&self) -> usize
        ensures { result ≡ length self.now }
    {
        self.all.len()
    }

    /// One write more.
    pub fn push(&mut self, bytes: Vec<u8>) -> Result<(), AllocFailed<Vec<u8>>>
        ensures added { OnOk result (self.new ≡ self.old ++ bytes.items ∷ []) }
        ensures refused { OnErr result (self.new ≡ self.old) }
    {
        self.all.push(bytes)
    }

    /// The bytes of a write.
    pub fn get(&self, write: usize) -> &[u8]
        requires { write < length self.now }
        ensures { result.now ≡ slice_index_or self.now write [] }
    {
        self.all[write].as_slice()
    }
}
