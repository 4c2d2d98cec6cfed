//! Laws on the texts of guards, each on a function with an empty body.
ghost use Rattle.mp_guard.specs.TextLaws.{GuardTextLaw, GuardLengthLaw};

/// What is printed of a guard with the network's lengths, all its numbers below 2^127, is read back as it is.
pub fn guard_text_law()
    ensures { GuardTextLaw }
{}

/// The text of a guard is short.
pub fn guard_length_law()
    ensures { GuardLengthLaw }
{}
