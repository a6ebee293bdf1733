// A law of the definitions.
ghost use Rattle.workers.specs.NamedLaws.{CallsAreOnNamedNodes};

/// Each call of a client is on a node that its script can name, whatever replies it has got.
pub fn calls_are_on_named_nodes()
    ensures { CallsAreOnNamedNodes }
{}
