// Laws of a selector over whole lists of packets: each is the contract of a function that does nothing.
ghost use Rattle.item_select.specs.Laws.{AllAreGiven, OneIsAll, OneIsGiven};

/// Packets that are offered one by one, each item given before the next one comes: the items given are those of all
/// packets, the filter stays, and the items have at most 188 bytes a packet.
pub fn all_items_are_given()
    ensures { AllAreGiven }
{}

/// Once a one-shot filter has given its section, no later packet has an item.
pub fn one_shot_gives_no_more()
    ensures { OneIsAll }
{}

/// A one-shot filter that has given an item has given its section.
pub fn one_shot_is_spent()
    ensures { OneIsGiven }
{}
