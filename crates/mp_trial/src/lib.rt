//! The search for the greatest certificate over a denominator: the stated calculation, and the laws above it, each on a function with an empty body.
#![tactic(auto)]

ghost use Rattle.mp_trial.specs.Laws.{EasierLaw, FitsLaw, HalvingsLaw, LeastRatesLaw, RoundingLaw, SearchLaw, UnfitLaw};
ghost use Rattle.mp_trial.specs.WorkedScales.{AreWorkedScales};

/// A number divided and rounded up is the least whose product with the divisor carries it.
pub fn rounding_law()
    ensures { RoundingLaw }
{}

/// After each sweep the rates are at most those of any certificate over the denominator that has the excess or more.
pub fn least_rates_law()
    ensures { LeastRatesLaw }
{}

/// A trial is unfit only where no certificate over the denominator has its excess or more.
pub fn unfit_law()
    ensures { UnfitLaw }
{}

/// A trial that fits has a certificate with its denominator and its excess.
pub fn fits_law()
    ensures { FitsLaw }
{}

/// A smaller excess is never harder.
pub fn easier_law()
    ensures { EasierLaw }
{}

/// The search doesn't depend on how many halvings it may take, where these are enough.
pub fn halvings_law()
    ensures { HalvingsLaw }
{}

/// A certificate that the search finds has the greatest excess over the denominator, and where the search finds none there is none.
pub fn search_law()
    ensures { SearchLaw }
{}

/// The searches over small denominators on the worked networks.
pub fn worked_scales()
    ensures { AreWorkedScales }
{}
