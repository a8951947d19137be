//! The laws.
ghost use Rattle.collective.specs.Laws.{SharesMeet, PlacesHaveOneOwner, SharesAreTheList};

/// The first share starts at 0, each other where the one before it ends, and the last ends at the total. No share ends
/// before it starts.
pub fn shares_meet()
    ensures { SharesMeet }
{}

/// Each position is in the share of just one rank.
pub fn places_have_one_owner()
    ensures { PlacesHaveOneOwner }
{}

/// The shares of a list, joined in the order of the ranks, are the list.
pub fn shares_are_the_list<T>()
    ensures { SharesAreTheList T }
{}
