//! The laws of the demonstration, each on a function with an empty body.
ghost use Rattle.mp_gen.specs.Greatest.{GreatestOfLaw};
ghost use Rattle.mp_gen.specs.DemoNetwork.{DemoNetworkLaw};
ghost use Rattle.mp_gen.specs.DemoCertified.{DemoCertifiedLaw};
ghost use Rattle.mp_gen.specs.DemoArrivals.{DemoPermittedLaw, OneDemoLaw};

/// A list that is not empty has its greatest.
pub fn greatest_of_law()
    ensures { GreatestOfLaw }
{}

/// Each demonstration network can be accepted.
pub fn demo_network_law()
    ensures { DemoNetworkLaw }
{}

/// Each demonstration network is certified.
pub fn demo_certified_law()
    ensures { DemoCertifiedLaw }
{}

/// The arrivals of a demonstration are permitted.
pub fn demo_permitted_law()
    ensures { DemoPermittedLaw }
{}

/// A demonstration has one list of arrivals for so many periods.
pub fn one_demo_law()
    ensures { OneDemoLaw }
{}
