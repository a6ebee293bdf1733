// Why a run stops.

ghost use Rattle.std.specs.Prelude.{◌≡◌};

use std::alloc::AllocError as NoMemory;

/// The most calls of one client in a run: 2^39.
pub const MOST_CALLS: u64 = 549_755_813_888;

/// Why a run of a script stopped before its end.
#[derive(Clone, Copy, Debug, PartialEq, Eq, Drop)]
pub enum Stop {
    /// Memory was refused.
    NoMemory,
    /// A client has made the most calls that a run allows.
    TooLong {
        /// How many they are.
        turns: u64,
    },
}

impl From<NoMemory> for Stop {
    ghost use Rattle.std.specs.Prelude.{◌≡◌};
    ghost use Rattle.client_core.specs.declared.stop.Stop.TheVariants.{NoMemory as WantOfMemory};

    ghost from_gives = { λ _ e. e ≡ WantOfMemory };

    fn from(_e: NoMemory) -> Stop {
        Stop::NoMemory
    }
}
