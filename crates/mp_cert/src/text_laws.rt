//! Laws on the texts of certificates and vectors, each on a function with an empty body.
ghost use Rattle.mp_cert.specs.TextLaws.{CertTextLaw, CertLengthLaw, VectorTextLaw, VectorLengthLaw};

/// What is printed of a certificate with the network's lengths and no number below 0 is read back as it is.
pub fn cert_text_law()
    ensures { CertTextLaw }
{}

/// The text of a certificate is short.
pub fn cert_length_law()
    ensures { CertLengthLaw }
{}

/// What is printed of a vector with a number per movement, none below 0, is read back as it is.
pub fn vector_text_law()
    ensures { VectorTextLaw }
{}

/// The text of a vector is short.
pub fn vector_length_law()
    ensures { VectorLengthLaw }
{}
