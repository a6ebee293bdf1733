// The law of merged histories.
ghost use Rattle.adapter.specs.Inside.Placing.{StandAtTheirPlaces};

/// Where the logs name each place at most once, and none beyond the end of its history, each entry of the merged histories
/// stands at the place that it names, and each history has as many entries as calls were made on its node.
pub fn entries_stand_at_their_places()
    ensures { StandAtTheirPlaces }
{}
