//! The slack of a certificate.
ghost use Rattle.std.specs.Prelude.{◌≡◌, ◌*ℤ◌, ◌≤ℤ◌, pos, unsigned_abs};
ghost use Rattle.mp_model.specs.Certificate.{DenominatorRule};
ghost use Rattle.mp_model.specs.Slack.{IsSlack};
ghost use Rattle.mp_num.specs.Fraction.{IsLowest, lowest_terms};
ghost use Rattle.mp_cert.specs.Views.{cert_of};

use crate::Cert;
use mp_num::Frac;

/// The slack of a certificate whose denominator is at least 1: its excess over its denominator in lowest terms,
/// in vehicles per period.
pub fn slack(cert: &Cert) -> Frac
    requires { DenominatorRule (cert_of cert.now) }
    ensures value { result ≡ lowest_terms cert.now.e cert.now.d }
    ensures same { (result.num *ℤ cert.now.d) ≡ (cert.now.e *ℤ result.den) }
    ensures lowest { IsLowest result.num result.den }
    ensures slack { pos 0 ≤ℤ cert.now.e → IsSlack (cert_of cert.now) (unsigned_abs result.num) (unsigned_abs result.den) }
{
    Frac::new(cert.e, cert.d)
}
