//! Whether a certificate has the network's lengths.
ghost use Rattle.std.specs.Prelude.{◌≡◌, ◌↔◌, ◌≤◌, length, nat_eq, IsTrue};
ghost use Rattle.std.specs.List.{AllByRecursion};
ghost use Rattle.mp_model.specs.Network.{junction_at, junction_numbers};
ghost use Rattle.mp_model.specs.Certificate.{mix_at, HasLengths};
ghost use Rattle.mp_cert.specs.Views.{cert_of};

use crate::Cert;
use crate::rules::mix_at;
use mp_net::{JunctionNo, Net};

/// Whether the junction has a part per stage.
fn has_parts(net: &Net, cert: &Cert, j: JunctionNo) -> bool
    requires mixes { length cert.now.mix ≡ length net.now.junctions }
    requires junction { (1 ≤ j) × (j ≤ length net.now.junctions) }
    ensures { result ≡ nat_eq (length (mix_at (cert_of cert.now) j).parts) (length (junction_at net.now j).stages) }
{
    mix_at(cert, j).parts.as_slice().len() == usize::from(net.stages(j))
}

/// Whether each junction has a part per stage.
#[tactic(auto, using(crate::proofs::LengthLemmas::fitting))]
fn have_parts(net: &Net, cert: &Cert) -> bool
    requires { length cert.now.mix ≡ length net.now.junctions }
    ensures { IsTrue result ↔ AllByRecursion (λ j. length (mix_at (cert_of cert.now) j).parts ≡ length (junction_at net.now j).stages) (junction_numbers net.now) }
{
    for j in 0..net.junctions() {
        if !has_parts(net, cert, j + 1) {
            return false;
        }
    }
    true
}

/// Whether the certificate has a rate per movement, a mix per junction, and a part per stage.
pub fn has_lengths(net: &Net, cert: &Cert) -> bool
    ensures { IsTrue result ↔ HasLengths net.now (cert_of cert.now) }
{
    cert.h.as_slice().len() == usize::from(net.movements())
        && cert.mix.as_slice().len() == usize::from(net.junctions())
        && have_parts(net, cert)
}
