ghost use Rattle.std.specs.Prelude.{◌≡◌};

use law_sig::NoMemory;

/// Why a certificate isn't read: the first line that has no reading, counted from 1, or want of memory.
#[derive(Clone, Copy, Debug, PartialEq, Eq)]
pub enum CertErr {
    Form { line: u64 },
    NoMemory,
}

impl From<NoMemory> for CertErr {
    ghost use Rattle.law_cert_text.specs.declared.error.CertErr.TheVariants as e;

    ghost from_gives = { λ _ error. error ≡ e.NoMemory };

    fn from(_: NoMemory) -> CertErr {
        CertErr::NoMemory
    }
}
