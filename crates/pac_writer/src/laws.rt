// The law of certificates that are written.
ghost use Rattle.pac_writer.specs.LawfulTexts.{WrittenCertificatesAreLawful};

/// What `write_certificate` writes of lawful lines is a lawful algebra file with these lines.
pub fn written_certificates_are_lawful()
    ensures { WrittenCertificatesAreLawful }
{}
